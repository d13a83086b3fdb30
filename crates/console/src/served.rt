// The host that runs ask.
// Stays matched where it is asked: a trait for two types with one caller would be no shorter than the two matches.
use record_host::record::RecordHost;
use worksheet::sheet::Worksheet;

#[derive(Clone, Copy)]
pub enum Served {
    Declared(RecordHost),
    Filled(Worksheet),
}

impl Served {
    // The charge lines that are left.
    pub fn lines(&self) -> u32 {
        match self {
            Served::Declared(host) => host.lines(),
            Served::Filled(sheet) => sheet.lines(),
        }
    }

    // The total of an account, where it is open.
    pub fn total(&self, account: u8) -> Option<i64> {
        match self {
            Served::Declared(host) => host.total(account),
            Served::Filled(sheet) => sheet.total(account),
        }
    }
}
