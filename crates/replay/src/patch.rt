// Runs of bytes that are put into an array.
ghost use Rattle.std.specs.Prelude.{◌≡◌, ◌+◌, ◌≤◌, min, length};
ghost use Rattle.replay.specs.Patches.{put as put_of, next, next_place, put_run, patched, patch as patch_of};

use crate::rest::Rest;

// The place n bytes on, at most the end.
fn onward(at: usize, n: u8, end: usize) -> usize
    ensures { result ≡ min (at + n) end }
{
    at.saturating_add(usize::from(n)).min(end)
}

// What does not fit is put nowhere.
fn put(bytes: &[u8], to: &mut [u8], place: usize)
    requires { place ≤ length to.old }
    ensures { to.new ≡ put_of bytes.now to.old place }
{
    if bytes.len() <= to.len() - place {
        to[place..place + bytes.len()].copy_from_slice(bytes);
    }
}

// Puts one run: bytes to pass over, its length, its bytes. The place after it is returned.
fn put_run(file: &mut Rest, to: &mut [u8], from: usize) -> usize
    ensures rest { file.new.0.now ≡ next file.old.0.now }
    ensures place { result ≡ next_place file.old.0.now from to.old }
    ensures bytes { to.new ≡ put_run file.old.0.now from to.old }
{
    let end = to.len();
    let place = onward(from, file.byte(), end);
    let n = file.byte();
    put(file.bytes(usize::from(n)), to, place);
    onward(place, n, end)
}

// Puts the runs that come next in the file into `to`.
pub(crate) fn patch(file: &mut Rest, to: &mut [u8])
    ensures whole { patched file.new.0.now to.new ≡ patch_of file.old.0.now to.old }
    ensures shorter { length file.new.0.now ≤ length file.old.0.now }
{
    let runs = file.byte();
    let mut place = 0;
    for _run in 0..runs {
        place = put_run(file, to, place);
    }
}
