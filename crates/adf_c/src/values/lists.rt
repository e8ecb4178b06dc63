//! Lists for C.

ghost use Rattle.std.specs.Prelude.{◌≡◌, length};
ghost use Rattle.adf_c.specs.Lists.{copied};

/// Copies a list to the start of an array, as far as the array has room. It returns the length of the list.
pub fn copy_to<T: Copy>(list: &[T], room: &mut [T]) -> usize
    ensures copied { room.new ≡ copied list.now room.old }
    ensures count { result ≡ length list.now }
{
    let fitting = room.len().min(list.len());
    room[..fitting].copy_from_slice(&list[..fitting]);
    list.len()
}
