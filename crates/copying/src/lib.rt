// Items of any plain type copied to the front of an output. It keeps no array.
#![tactic(auto)]

ghost use Rattle.std.specs.Prelude.{◌≡◌};
ghost use Rattle.copying.specs.Copied.{copied};

// Copies items to the front of an output, as many as it has room for. By a loop, since `copy_from_slice` calls memmove, and of the C
// library only memcpy and memset are called.
pub fn copy<T: Copy>(items: &[T], out: &mut [T])
    ensures { out.new ≡ copied items.now out.old }
{
    for i in 0..items.len().min(out.len()) {
        out[i] = items[i];
    }
}
