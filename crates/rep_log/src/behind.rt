//! Lists that are moved behind others. No memory is taken.

ghost use Rattle.std.specs.Prelude.{◌≡◌, ◌+◌, ◌≤◌, ◌++◌, [], IsTrue, vec_len, vec_capacity};

/// Moves what is in a list after what is in another, where there is room for it.
fn move_behind<T: Drop>(into: &mut Vec<T>, more: &mut Vec<T>)
    requires { vec_len into.old + vec_len more.old ≤ vec_capacity into.old }
    ensures items { into.new.items ≡ into.old.items ++ more.old.items }
    ensures len { vec_len into.new ≡ vec_len into.old + vec_len more.old }
    ensures room { vec_capacity into.old ≤ vec_capacity into.new }
{
    match into.append(more) {
        Ok(()) => {}
        Err(_) => unreachable!(),
    }
}

/// Whether there is room for so many more.
fn has_room<T: Drop>(list: &Vec<T>, more: usize) -> bool
    ensures { IsTrue result → vec_len list.now + more ≤ vec_capacity list.now }
{
    match list.len().checked_add(more) {
        Some(count) => count <= list.capacity(),
        None => false,
    }
}

/// Moves more after what is there: it stays where it is, if there is room for all, and goes to
/// `room` else, which is empty.
pub fn append_reusing<T: Drop>(there: &mut Vec<T>, mut more: Vec<T>, mut room: Vec<T>)
    requires empty { room.items ≡ [] }
    requires room { vec_len there.old + vec_len more ≤ vec_capacity room }
    ensures { there.new.items ≡ there.old.items ++ more.items }
{
    if has_room(there, more.len()) {
        move_behind(there, &mut more);
        return;
    }
    move_behind(&mut room, there);
    move_behind(&mut room, &mut more);
    *there = room;
}
