// The check of a table by itself, for a caller that has no message at hand.
#![tactic(auto)]

ghost use Rattle.std.specs.Prelude.{◌≡◌};
ghost use Rattle.encoding.specs.Table.{faults, table_verdict};

use encoding::Verdict;
use wire::Refusal;

// Whether a table breaks a rule: the number of the first broken rule is its class, 31 to 39; its place is 0 or the first byte of its row.
// Wrong and ruled out: one number for every rule; the number of a rule as its place.
#[tactic(auto, using(crate::proofs::Telling::number_fits, crate::proofs::Telling::place_fits))]
pub fn check(table: &[u8]) -> Verdict
    ensures { result ≡ table_verdict (faults table.now) }
{
    match rules::check(table) {
        Ok(()) => Verdict::Sound,
        Err(Refusal { number, place }) => Verdict::Broken(number as u32, place as u32),
    }
}
