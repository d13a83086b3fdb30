// The work area: an image buffer and cells, which are lent with each call, and a record that remembers how it stands.
#![tactic(auto)]

pub mod record;
