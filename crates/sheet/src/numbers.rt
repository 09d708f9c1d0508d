//! The numbers of tables and lists as a card holds them, in four bytes each.
ghost use Rattle.std.specs.Prelude.{◌≡◌, ◌+◌, ◌≤◌, ◌++◌, length};
ghost use Rattle.opening.specs.Fits.{Near};

use arrayvec::ArrayVec;

/// Puts the numbers at the end of a list that has room for them. Four bytes hold each.
fn push_all<const N: usize>(numbers: &mut ArrayVec<i32, N>, xs: &[i64])
    requires near { Near 536870912 xs.now }
    requires room { length numbers.old.items + length xs.now ≤ N }
    ensures { numbers.new.items ≡ numbers.old.items ++ xs.now }
{
    for x in xs {
        numbers.push(*x as i32);
    }
}

/// The numbers of two lists, one after the other.
pub(crate) fn list_numbers<const N: usize>(xs: &[i64], ys: &[i64]) -> ArrayVec<i32, N>
    requires first { Near 536870912 xs.now }
    requires second { Near 536870912 ys.now }
    requires room { length xs.now + length ys.now ≤ N }
    ensures { result.items ≡ xs.now ++ ys.now }
{
    let mut numbers = ArrayVec::new();
    push_all(&mut numbers, xs);
    push_all(&mut numbers, ys);
    numbers
}
