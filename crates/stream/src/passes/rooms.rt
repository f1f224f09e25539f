// Room in the list, and records into it.
ghost use Rattle.std.specs.Prelude.{◌≡◌, ◌++◌, ◌*◌, ◌≤◌, length, None};
ghost use Rattle.std.proofs.lemmas.List.Edits.{sets};
ghost use Rattle.token.specs.Table.{flat, room_of};
ghost use Rattle.states.specs.Steps.{over_at};
ghost use Rattle.steps.specs.Shapes.{list_of};

pub(crate) fn many(g: Option<(u32, u32, u32)>) -> usize
    ensures { result ≡ length (list_of g) }
{
    match g {
        None => 0,
        Some((_, _, _)) => 1,
    }
}

// A token for which there is no room behind n records.
#[tactic(auto, unfolding(states::specs::Steps::over_at))]
pub(crate) fn over(room: usize, n: usize, g: Option<(u32, u32, u32)>) -> Option<usize>
    ensures { result ≡ over_at room n (list_of g) }
{
    match g {
        None => None,
        Some((_, start, _)) => {
            if n < room {
                return None;
            }
            Some(start as usize)
        }
    }
}

// The first of two. Asking `over` of each in turn takes a tenth more instructions for a byte.
#[tactic(auto, unfolding(states::specs::Steps::over_at))]
pub(crate) fn over_two(
    room: usize,
    n: usize,
    before: Option<(u32, u32, u32)>,
    here: Option<(u32, u32, u32)>,
) -> Option<usize>
    requires { n ≤ 70000 }
    ensures { result ≡ over_at room n (list_of before ++ list_of here) }
{
    match before {
        None => over(room, n, here),
        Some((_, start, _)) => {
            if n < room {
                return over(room, n + 1, here);
            }
            Some(start as usize)
        }
    }
}

// A record behind n others.
pub(crate) fn put(list: &mut [u32], n: usize, g: Option<(u32, u32, u32)>)
    requires { over_at (room_of list.old) n (list_of g) ≡ None }
    ensures { list.new ≡ sets list.old (n * 3) (flat (list_of g)) }
{
    match g {
        None => {}
        Some((kind, start, end)) => {
            token::inner::listing::put_token(list, n, kind, start, end);
        }
    }
}

pub(crate) fn put_two(
    list: &mut [u32],
    n: usize,
    before: Option<(u32, u32, u32)>,
    here: Option<(u32, u32, u32)>,
)
    requires n_bound { n ≤ 70000 }
    requires here_value { over_at (room_of list.old) n (list_of before ++ list_of here) ≡ None }
    ensures { list.new ≡ sets list.old (n * 3) (flat (list_of before ++ list_of here)) }
{
    put(list, n, before);
    put(list, n + many(before), here);
}
