// Bytes of a sheet: a field of a body, and parts written one after another.
ghost use Rattle.std.specs.Prelude.{◌≡◌, ◌+◌, ◌≤◌, length};
ghost use Rattle.sheet.specs.Fields.{bytes_at, written, joined};

// The bytes of a body from a place on.
pub(crate) fn bytes_at<const N: usize>(body: &[u8], place: usize) -> [u8; N]
    requires { place + N ≤ length body.now }
    ensures { result ≡ bytes_at body.now place N }
{
    *body[place..].first_chunk().unwrap()
}

// Writes bytes over the space from a place on, and answers the place behind them.
pub(crate) fn put(space: &mut [u8], place: usize, bytes: &[u8]) -> usize
    requires { place + length bytes.now ≤ length space.old }
    ensures after { space.new ≡ written place bytes.now space.old }
    ensures place { result ≡ place + length bytes.now }
{
    let end = place + bytes.len();
    space[place..end].copy_from_slice(bytes);
    end
}

// Writes parts one after another from the front of the space, and answers the place behind the last.
pub(crate) fn put_all(space: &mut [u8], parts: &[&[u8]]) -> usize
    requires { length (joined parts.now) ≤ length space.old }
    ensures after { space.new ≡ written 0 (joined parts.now) space.old }
    ensures place { result ≡ length (joined parts.now) }
{
    let mut place = 0;
    for part in parts {
        place = put(space, place, part);
    }
    place
}
