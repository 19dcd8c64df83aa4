// The record of a filter, part after part.
ghost use Rattle.std.specs.Prelude.{◌≡◌, ◌*◌, ◌≤◌, length};
ghost use Rattle.floats.specs.Fronts.{over};
ghost use Rattle.filter.specs.Records.{record_length, bytes_of};

use filter::Filter;
use pieces::{kinds, numbers};

// The record to the front of out; the rest of out stays.
pub fn put_record(f: Filter<f64>, out: &mut [u8])
    requires { (f.sheet.n ≤ 8) × ((f.sheet.n * f.sheet.n ≤ 64) × (record_length f.sheet.n ≤ length out.old)) }
    ensures { out.new ≡ over (bytes_of f) out.old }
{
    let n = f.sheet.n;
    let k = n * n;
    out[0] = 0x57;
    out[1] = 0x50;
    out[2] = n as u8;
    numbers::put_numbers(&f.track.x, n, out, 3);
    numbers::put_numbers(&f.track.p, k, out, 3 + 8 * n);
    numbers::put_numbers(&f.sheet.q, k, out, 3 + 8 * n + 8 * k);
    let params = f.sheet.params;
    let values = [params.alpha, params.beta, params.kappa];
    numbers::put_numbers(&values, 3, out, 3 + 8 * n + 16 * k);
    kinds::put_kinds(f.sheet.kinds, n, out, 27 + 8 * n + 16 * k);
}
