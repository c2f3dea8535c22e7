//! The parts of a count: the games after one move, one for each class of moves.
ghost use Rattle.std.specs.Prelude.{◌≡◌, ◌++◌, ◌+◌, ◌≤◌, IfOk, OnOk, length};
ghost use Rattle.hive_model.specs.Lists.{IsOn};
ghost use Rattle.hive_model.specs.Legal.{moves};
ghost use Rattle.hive_model.specs.Histories.{position};
ghost use Rattle.io_edge.specs.Outside.{HasCause};
ghost use Rattle.command_runs.specs.Runs.{RunsAs, side_of};
ghost use Rattle.count_command.specs.Parts.{PartRun, IsPartText, TellsParts, part_line};

use command_runs::{Status, read_one_game, tell_none};
use count_share::{MoveClass, classes_of};
use game_text::write_game;
use hive_model::{Game, ReplyText};
use io_edge::{Sink, Source, write_all};
use itoa::Buffer;
use std::alloc::{AllocError, Global};

/// Appends the line of a class: the number of its moves, a space, and the game after its first
/// move. The game does not change.
fn push_part<G: Game + Drop>(
    alloc: Global,
    game: &mut G,
    class: &MoveClass,
    text: &mut ReplyText,
) -> Result<(), AllocError>
    requires legal { IsOn (moves (position (G.history game.old))) class.now.moved }
    requires spare { 1 ≤ (G.history game.old).spare }
    ensures written { OnOk result (text.new ≡ text.old
        ++ part_line (G.history game.old).game_type (G.history game.old).made class.now) }
    ensures game { G.history game.new ≡ G.history game.old }
{
    let mut buffer = Buffer::new();
    text.push_all(buffer.format(class.weight).as_bytes())?;
    text.push(b' ')?;
    game.play(class.moved.again());
    let written = write_game(alloc, game, text);
    game.undo();
    written?;
    text.push(b'\n')
}

/// The lines of all classes of the legal moves of a game.
fn parts_text<G: Game + Drop>(alloc: Global, mut game: G) -> Result<ReplyText, AllocError>
    requires { 1 ≤ (G.history game).spare }
    ensures { IfOk result (IsPartText (G.history game).game_type (G.history game).made) }
{
    let classes = classes_of(alloc, &mut game)?;
    let mut text = ReplyText::new(alloc);
    for i in 0..classes.len() {
        push_part(alloc, &mut game, &classes[i], &mut text)?;
    }
    Ok(text)
}

/// Writes the parts of the counts of a game.
fn tell_parts<K: Sink, G: Game + Drop>(alloc: Global, game: G, output: &mut K) -> Status
    requires { 1 ≤ (G.history game).spare }
    ensures told { TellsParts (G.history game).game_type (G.history game).made result
        (K.written output.old) (K.written output.new) }
    ensures cause { HasCause (result ≡ Status.WriteFault) (K.write_faults output.old)
        (K.write_faults output.new) }
{
    let Ok(text) = parts_text(alloc, game) else {
        return Status::Memory;
    };
    if write_all(output, text.items()) {
        Status::Done
    } else {
        Status::WriteFault
    }
}

/// Reads the one game of the input, and writes the parts of its counts. Each line has a weight, a
/// space, and the string of a game with one more legal move. The counts behind these games, each
/// times its weight, add up to the counts behind the game, with one ply more.
///
/// The status is then `Done`. If the input is not exactly one game that is not over, one line that
/// begins with `bad` says why, and the status is `BadInput`. If a read fails, the input is full or
/// memory runs out, the run ends with nothing written.
pub fn split<S: Source, K: Sink, G: Game + Drop>(
    alloc: Global,
    input: &mut S,
    output: &mut K,
) -> Status
    ensures { RunsAs PartRun result
        (side_of S.rest S.read_faults input.old) (side_of K.written K.write_faults output.old)
        (side_of S.rest S.read_faults input.new) (side_of K.written K.write_faults output.new) }
{
    match read_one_game::<S, G>(alloc, input, 1) {
        Ok(game) => tell_parts(alloc, game, output),
        Err(none) => tell_none(none, output),
    }
}
