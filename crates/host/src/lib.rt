// What a run asks of the declaration it is run for: fields by number, and charges to accounts.
#![tactic(auto)]

ghost use Rattle.std.specs.Prelude.{◌≡◌};
ghost use Rattle.host.specs.Meaning.{Meaning, asked, answered, left, posting};

use language::faults::Stop;

pub mod one_line;

pub trait Host {
    // what the host means; all that a run can learn of it
    ghost means: { Self → Meaning };

    // The amount of a field. Asking changes nothing.
    fn amount(&self, field: u8) -> Result<i32, Stop>
        ensures { result ≡ asked ((means self.now).amount field) };

    // The flag of a field.
    fn flag(&self, field: u8) -> Result<bool, Stop>
        ensures { result ≡ asked ((means self.now).flag field) };

    // Posts a charge to an account; a refused posting changes nothing.
    fn post(&mut self, account: u8, value: i32) -> Result<(), Stop>
        ensures answer { result ≡ answered (posting (means self.old) account value) }
        ensures after { means self.new ≡ left (posting (means self.old) account value) (means self.old) };
}
