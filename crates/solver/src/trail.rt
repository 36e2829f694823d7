// A record of the trail: a completed step's six floats.
ghost use Rattle.std.specs.Prelude.{◌≡◌, ◌++◌, ◌≤◌, length, drop};
ghost use Rattle.solver.specs.Trail.{record_bytes};

use crate::little_endian::put_float;
use crate::state::Record;

// A record's bytes in the trail.
pub(crate) const STEP_BYTES: usize = 48;

pub(crate) fn put_record(out: &mut [u8], r: Record)
    requires { 48 ≤ length out.old }
    ensures { out.new ≡ record_bytes r ++ drop 48 out.old }
{
    put_float(out, 0, r.s);
    put_float(out, 8, r.b);
    put_float(out, 16, r.vega);
    put_float(out, 24, r.left);
    put_float(out, 32, r.right);
    put_float(out, 40, r.after);
}
