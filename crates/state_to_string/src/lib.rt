// States as strings of bytes, FIPS 202, section 3.1.3: the first bytes of a state's string stored.
#![tactic(auto)]

ghost use Rattle.std.specs.Prelude.{◌≡◌, ◌≤◌, length, take};
ghost use Rattle.lists.specs.Table.{table};
ghost use Rattle.state_to_string.specs.Bytes.{lane_byte, bytes_of};

// Stores the first bytes of a lane, as many as `out` has.
fn put_lane(out: &mut [u8], v: u64)
    requires { length out.old ≤ 8 }
    ensures { out.new ≡ table (length out.old) (lane_byte v) }
{
    let n = out.len();
    out.copy_from_slice(&v.to_le_bytes()[..n]);
}

// Stores the first bytes of the state's string, as many as `out` has: whole lanes, eight bytes each as the compiler knows, then what is left.
// By index: of what an iterator over mutable chunks has written, the library's contracts say nothing.
pub fn put_bytes(s: [[u64; 5]; 5], out: &mut [u8])
    requires { length out.old ≤ 200 }
    ensures { out.new ≡ take (length out.old) (bytes_of s) }
{
    let n = out.len() / 8;
    for k in 0..n {
        let at = 8 * k;
        put_lane(&mut out[at..at + 8], s[k / 5][k % 5]);
    }
    let at = 8 * n;
    if at < out.len() {
        put_lane(&mut out[at..], s[n / 5][n % 5]);
    }
}
