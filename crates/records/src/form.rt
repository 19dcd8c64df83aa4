// The form of a record: its length, its mark, its kinds.
ghost use Rattle.std.specs.Prelude.{◌≡◌};
ghost use Rattle.floats.specs.Refusal.{refusal};
ghost use Rattle.records.specs.Parts.{form_of};

use filter::checks;
use floats::Verdict;
use pieces::kinds;

// Under three bytes 2, then 1, 2 and 12.
pub fn form_refusal(s: &[u8]) -> Verdict
    ensures { result ≡ refusal (form_of s.now) }
{
    if s.len() < 3 {
        return floats::placeless(2);
    }
    let n = s[2] as usize;
    if !checks::is_sized(n) {
        return floats::placeless(1);
    }
    if s.len() < crate::record_length(n) {
        return floats::placeless(2);
    }
    if s[0] != 0x57 || s[1] != 0x50 || !kinds::all_formed(s, 27 + 8 * n + 16 * (n * n), n) {
        return floats::placeless(12);
    }
    floats::placeless(0)
}
