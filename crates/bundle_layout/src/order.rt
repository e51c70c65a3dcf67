// The order of a bundle's paths, and no path that is a folder of another.
ghost use Rattle.std.specs.Prelude.{◌≡◌, ◌&&◌, ◌≤◌, ◌<◌, eqb, false, length, get_or};
ghost use Rattle.rules.specs.Bytes.{less};
ghost use Rattle.bundle_layout.specs.Order.{Agree, Marked, keeps};

use paths::is_path;

// In how many bytes two paths agree from the start. A loop, since `zip` with `take_while` and `count` takes two instructions more for each byte.
pub fn agree(x: &[u8], q: &[u8]) -> usize
    ensures { Agree x.now q.now result }
{
    let n = x.len().min(q.len());
    for i in 0..n {
        if x[i] != q[i] {
            return i;
        }
    }
    n
}

// Does x stand before q, where they agree in k bytes?
fn ordered(x: &[u8], q: &[u8], k: usize) -> bool
    requires { Agree x.now q.now k }
    ensures { result ≡ less x.now q.now }
{
    if q.len() <= k {
        return false;
    }
    if x.len() <= k {
        return true;
    }
    x[k] < q[k]
}

// Is a marked start of q, of k bytes, a folder of q?
fn clashes(q: &[u8], k: usize, files: &[bool; 256]) -> bool
    requires { (k < length q.now) × (length q.now ≤ 255) }
    ensures { result ≡ (eqb (get_or q.now k 0) 47 && get_or files.now k false) }
{
    (q[k] == b'/') & files[k]
}

// May the path q follow the last path x, with which it agrees in k bytes? `files` marks the starts of x that are paths.
pub fn keeps(x: &[u8], q: &[u8], k: usize, files: &[bool; 256]) -> bool
    requires { Agree x.now q.now k × (length q.now ≤ 255) }
    ensures { result ≡ keeps x.now q.now k files.now }
{
    if !is_path(q) {
        return false;
    }
    if !ordered(x, q, k) {
        return false;
    }
    !clashes(q, k, files)
}

// The marks for a last path of n bytes that agrees with the one before it in k bytes.
pub fn mark(files: &mut [bool; 256], k: usize, n: usize)
    requires { (k < n) × (n ≤ 255) }
    ensures { Marked files.old files.new k n }
{
    files[k + 1..n].fill(false);
    files[n] = true;
}
