// The record host.
use crate::checked::CheckedRecord;
use crate::totals::Totals;

// A host over a checked record.
#[derive(Clone, Copy)]
pub struct RecordHost {
    pub(crate) checked: CheckedRecord,
    pub(crate) totals: Totals,
}
