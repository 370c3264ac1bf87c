//! The lazy machine: a stack of cursors, the deepest last.
ghost use Rattle.std.specs.Prelude.{◌≡◌, ℕ, ◌+◌, ◌-◌, ◌*◌, ◌^◌, ◌<◌, ◌≤◌, ◌∷◌, [], ◌++◌, length, map, IfOk, MatchOption, IfNone, IfSome, vec_capacity};
ghost use Rattle.shredding.specs.Parts.{IsPath, slot_count};
ghost use Rattle.levels.specs.Nested.{parts_of};
ghost use Rattle.levels.specs.Levels.{run, slot_pairs, path_pairs};
ghost use Rattle.levels.specs.Stack.{CursorFits, IsLow, left, cursor_pairs, CursorsFit, room_after, front_levels};
ghost use Rattle.levels.specs.Stretch.{level_of, like_pairs};

use crate::nested::Nested;
use crate::walk::{Level, Stretch, stretch_at};

// The slots from `place` to `end` of the rest of a path, beneath `def` definition levels and `depth` lists.
#[derive(Clone, Copy, Debug, Drop)]
pub struct Cursor<'a> {
    pub parts: &'a [Nested],
    pub def: u32,
    pub depth: u32,
    pub place: usize,
    pub end: usize,
}

// Puts a cursor on the stack, where it has slots.
pub fn put<'a>(stack: &mut Vec<Cursor<'a>>, room: usize, cursor: Cursor<'a>)
    requires well { IsPath (parts_of cursor.parts.now) }
    requires within { cursor.end ≤ slot_count (parts_of cursor.parts.now) }
    requires low { IsLow cursor }
    requires fits { CursorsFit room stack.old.items }
    requires below { length cursor.parts.now ≤ room_after room stack.old.items }
    requires room { room ≤ vec_capacity stack.old }
    ensures fits { CursorsFit room stack.new.items }
    ensures below { length cursor.entry.parts.now ≤ room_after room stack.new.items + 1 }
    ensures room { room ≤ vec_capacity stack.new }
    ensures left { left stack.new.items ≡ cursor_pairs cursor.entry ++ left stack.old.items }
{
    if cursor.place < cursor.end {
        let Ok(()) = stack.push(cursor) else {
            unreachable!()
        };
    }
}

// Puts a cursor back on the stack for its slots from a place on, where it has some.
#[inline(always)]
fn put_rest<'a>(stack: &mut Vec<Cursor<'a>>, room: usize, cursor: Cursor<'a>, place: usize)
    requires well { IsPath (parts_of cursor.parts.now) }
    requires within { cursor.end ≤ slot_count (parts_of cursor.parts.now) }
    requires low { IsLow cursor }
    requires fits { CursorsFit room stack.old.items }
    requires below { length cursor.parts.now ≤ room_after room stack.old.items }
    requires room { room ≤ vec_capacity stack.old }
    ensures fits { CursorsFit room stack.new.items }
    ensures below { length cursor.entry.parts.now ≤ room_after room stack.new.items + 1 }
    ensures room { room ≤ vec_capacity stack.new }
    ensures left { left stack.new.items ≡ cursor_pairs (record cursor.entry { place = place }) ++ left stack.old.items }
{
    put(stack, room, Cursor { place, ..cursor });
}

// Levels in front of what is left on the stack: the first, and so many others of one value.
#[derive(Clone, Copy, Drop)]
pub struct Front {
    pub first: u32,
    pub other: u32,
    pub more: usize,
}

// The levels of slots that each have one pair of a definition level.
fn front_of(level: Level, rep: u32, depth: u32, def: u32, count: usize) -> Front
    requires some { 0 < count }
    ensures { map (level_of level) (like_pairs rep depth def count) ≡ front_levels result }
{
    let more = count - 1;
    match level {
        Level::Repetition => Front {
            first: rep,
            other: depth,
            more,
        },
        Level::Definition => Front {
            first: def,
            other: def,
            more,
        },
    }
}

// The levels in front of a cursor's slots, leaving on the stack those that follow.
fn descend<'a>(
    stack: &mut Vec<Cursor<'a>>,
    room: usize,
    cursor: Cursor<'a>,
    rep: u32,
    level: Level,
) -> Front
    requires well { IsPath (parts_of cursor.parts.now) }
    requires some { cursor.place < cursor.end }
    requires within { cursor.end ≤ slot_count (parts_of cursor.parts.now) }
    requires low { IsLow cursor }
    requires fits { CursorsFit room stack.old.items }
    requires below { length cursor.parts.now ≤ room_after room stack.old.items }
    requires room { room ≤ vec_capacity stack.old }
    ensures fits { CursorsFit room stack.new.items }
    ensures room { room ≤ vec_capacity stack.new }
    ensures front { map (level_of level)
        (run
        (slot_pairs
        (parts_of cursor.entry.parts.now) cursor.entry.def cursor.entry.depth) rep cursor.entry.depth
        cursor.entry.place (cursor.entry.end - cursor.entry.place) ++ left stack.old.items)
        ≡ front_levels result ++ map (level_of level) (left stack.new.items) }
{
    match stretch_at(cursor.parts, level, cursor.place, cursor.end) {
        Stretch::Ends(up, end) => {
            put_rest(stack, room, cursor, end);
            front_of(
                level,
                rep,
                cursor.depth,
                cursor.def + up,
                end - cursor.place,
            )
        }
        Stretch::Below(rest, up, end) => {
            put_rest(stack, room, cursor, end);
            let below = Cursor {
                parts: rest,
                def: cursor.def + up,
                depth: cursor.depth,
                place: cursor.place,
                end,
            };
            descend(stack, room, below, rep, level)
        }
        Stretch::Items(rest, up, from, to, end) => {
            put_rest(stack, room, cursor, end);
            let items = Cursor {
                parts: rest,
                def: cursor.def + up,
                depth: cursor.depth + 1,
                place: from,
                end: to,
            };
            descend(stack, room, items, rep, level)
        }
    }
}

// Takes the deepest cursor off the stack.
fn pop<'a>(stack: &mut Vec<Cursor<'a>>, room: usize) -> Option<Cursor<'a>>
    requires fits { CursorsFit room stack.old.items }
    requires room { room ≤ vec_capacity stack.old }
    ensures fits { CursorsFit room stack.new.items }
    ensures room { room ≤ vec_capacity stack.new }
    ensures none { IfNone result ((left stack.old.items ≡ []) × (left stack.new.items ≡ [])) }
    ensures cursor { IfSome result CursorFits }
    ensures below { IfSome result (λ cursor. length cursor.parts.now ≤ room_after room stack.new.items) }
    ensures left { IfSome result (λ cursor. left stack.old.items ≡ cursor_pairs cursor ++ left stack.new.items) }
{
    stack.pop()
}

// Takes the next levels off the stack.
pub fn take<'a>(stack: &mut Vec<Cursor<'a>>, room: usize, level: Level) -> Option<Front>
    requires fits { CursorsFit room stack.old.items }
    requires room { room ≤ vec_capacity stack.old }
    ensures fits { CursorsFit room stack.new.items }
    ensures room { room ≤ vec_capacity stack.new }
    ensures gives { MatchOption result ((left stack.old.items ≡ [])
        × (left stack.new.items ≡ [])) (λ front. map (level_of level) (left stack.old.items)
        ≡ front_levels front ++ map (level_of level) (left stack.new.items)) }
{
    let cursor = pop(stack, room)?;
    Some(descend(stack, room, cursor, cursor.depth, level))
}
