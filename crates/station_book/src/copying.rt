//! How a list of fixed room becomes a copy of another.
ghost use Rattle.std.specs.Prelude.{◌≡◌};

use arrayvec::ArrayVec;

/// Makes the list a copy of another one. What both have room for is copied over what was there.
pub fn copy_list<T: Copy + Default, const N: usize>(
    list: &mut ArrayVec<T, N>,
    other: &ArrayVec<T, N>,
)
    ensures { list.new.items ≡ other.now.items }
{
    let common = list.len().min(other.len());
    list.truncate(common);
    list.as_mut_slice()
        .copy_from_slice(&other.as_slice()[..common]);
    let Ok(()) = list.try_extend_from_slice(&other.as_slice()[common..]) else {
        unreachable!()
    };
}
