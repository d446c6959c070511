// What is done to a content that a board holds.
ghost use Rattle.std.specs.Prelude.{◌≡◌, IfOk, IsSome, Some};
ghost use Rattle.pgo_base.specs.View.{data_of};
ghost use Rattle.pgo_shared.specs.SeatBoards.{layout_of_board, shows_of, table_of};
ghost use Rattle.pgo_workers.specs.View.{Hold, hold_at};
ghost use Rattle.pgo_table_rows.specs.Clients.{IsNow, PutWith, PutSome};

use crate::cells::write_number;
use pgo_base::value::Value;
use pgo_resource::board::Board;
use pgo_resource::resource::{OpStop, Resource};
use pgo_shared::seat_board::SeatBoard;
use pgo_starts::content::Content;
use std::alloc::{AllocError, Global};

/// What a held content is.
pub fn value_of(
    alloc: Global,
    board: &mut SeatBoard<'_, Content>,
    r: u32,
) -> Result<Value, AllocError>
    requires { IsSome (hold_at (shows_of board.old).held r) }
    ensures layout { layout_of_board board.new ≡ layout_of_board board.old }
    ensures table { table_of board.new ≡ table_of board.old }
    ensures shows { shows_of board.new ≡ shows_of board.old }
    ensures value { IfOk result (IsNow (shows_of board.old) r) }
{
    board.content(r).value(alloc)
}

/// Writes a number to a held content.
pub fn put_number(
    alloc: Global,
    board: &mut SeatBoard<'_, Content>,
    r: u32,
    v: i64,
) -> Result<(), OpStop>
    requires { IsSome (hold_at (shows_of board.old).held r) }
    ensures layout { layout_of_board board.new ≡ layout_of_board board.old }
    ensures table { table_of board.new ≡ table_of board.old }
    ensures shows { (h : Hold) → hold_at (shows_of board.old).held r ≡ Some h → PutSome r h (shows_of board.old) (shows_of board.new) }
{
    write_number(alloc, board.content(r), v)
}

/// Makes what a held content is its base.
pub fn settle(board: &mut SeatBoard<'_, Content>, r: u32)
    requires { IsSome (hold_at (shows_of board.old).held r) }
    ensures layout { layout_of_board board.new ≡ layout_of_board board.old }
    ensures table { table_of board.new ≡ table_of board.old }
    ensures shows { (h : Hold) → hold_at (shows_of board.old).held r ≡ Some h → PutWith r (record h.content { base = h.content.current }) (shows_of board.old) (shows_of board.new) }
{
    board.content(r).commit();
}

/// Makes a held content its base again.
pub fn put_back(board: &mut SeatBoard<'_, Content>, r: u32)
    requires { IsSome (hold_at (shows_of board.old).held r) }
    ensures layout { layout_of_board board.new ≡ layout_of_board board.old }
    ensures table { table_of board.new ≡ table_of board.old }
    ensures shows { (h : Hold) → hold_at (shows_of board.old).held r ≡ Some h → PutWith r (record h.content { current = h.content.base }) (shows_of board.old) (shows_of board.new) }
{
    board.content(r).abort();
}
