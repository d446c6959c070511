// The text of a load.
ghost use Rattle.std.specs.Prelude.{◌≡◌, ◌++◌, IfOk};
ghost use Rattle.pgo_model.specs.ModuleText.{flatten};
ghost use Rattle.pgo_load.specs.Load.{load_text, numbered};
ghost use Rattle.pgo_load.specs.Numbered.{numbered_line};

use pgo_lines::line::Line;
use pgo_lines::line::Piece::{Bytes, Number};
use std::alloc::{AllocError, Global};

/// The lines before the processes.
const HEAD: &[u8] = b"---- MODULE Load ----
EXTENDS Integers, Sequences
CONSTANTS N, BUFFER_SIZE
(*
--mpcal Load {
mapping macro ReliableFIFOLink {
  read { await Len($variable) > 0;
         with (msg = Head($variable)) { $variable := Tail($variable); yield msg; }; }
  write { await Len($variable) < BUFFER_SIZE; yield Append($variable, $value); }
}
archetype APing(ref net[_]) variables n = 0; {
  s: net[self + N] := n;
  r: n := net[self] + 1; if (n < 50) { goto s; }; }
archetype APong(ref net[_]) variables k = 0, m; {
  l: m := net[self];
  a: net[self - N] := m; k := k + 1; if (k < 50) { goto l; }; }
variables net = [i \\in 1..(2 * N) |-> <<>>];
";

/// The lines behind them.
const TAIL: &[u8] = b"}
*)
====
";

/// Adds a line that has the number twice: between these words.
fn push_line<'a>(
    alloc: Global,
    text: &mut Vec<u8>,
    before: &'a [u8],
    between: &'a [u8],
    behind: &'a [u8],
    number: u64,
) -> Result<(), AllocError>
    ensures { IfOk result (λ _. text.new.items ≡ text.old.items ++ numbered_line before.now between.now behind.now number) }
{
    let line = Line::of(
        alloc,
        &[
            Bytes(before),
            Number(number),
            Bytes(between),
            Number(number),
            Bytes(behind),
        ],
    )?;
    text.extend_from_slice(line.as_bytes())
}

/// Adds such a line for each number from 1 to the size.
fn push_lines<'a>(
    alloc: Global,
    text: &mut Vec<u8>,
    before: &'a [u8],
    between: &'a [u8],
    behind: &'a [u8],
    size: u32,
) -> Result<(), AllocError>
    ensures { IfOk result (λ _. text.new.items ≡ text.old.items ++ flatten (numbered (numbered_line before.now between.now behind.now) size)) }
{
    for i in 0..size {
        push_line(alloc, text, before, between, behind, i as u64 + 1)?;
    }
    Ok(())
}

/// The specification of the load of this size, as a text.
pub fn text_of(alloc: Global, size: u32) -> Result<Vec<u8>, AllocError>
    ensures { IfOk result (λ t. t.items ≡ load_text size) }
{
    let mut text = Vec::from_slice(alloc, HEAD)?;
    push_lines(
        alloc,
        &mut text,
        b"fair process (Ping",
        b" = ",
        b") == instance APing(ref net[_]) mapping net[_] via ReliableFIFOLink;\n",
        size,
    )?;
    push_lines(
        alloc,
        &mut text,
        b"fair process (Pong",
        b" = N + ",
        b") == instance APong(ref net[_]) mapping net[_] via ReliableFIFOLink;\n",
        size,
    )?;
    text.extend_from_slice(TAIL)?;
    Ok(text)
}
