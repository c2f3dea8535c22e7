//! What is wrong with a reply as the list of the legal moves.
ghost use Rattle.std.specs.Prelude.{◌≡◌, ◌≤◌, length, IfOk};
ghost use Rattle.hive_model.specs.Histories.{position};
ghost use Rattle.hive_model.specs.Legal.{moves};
ghost use Rattle.io_edge.specs.Lines.{greatest_line};
ghost use Rattle.move_text.specs.Moves.{move_of};
ghost use Rattle.audit_core.specs.Judging.{finding, first_missing, part_of, wrong_list};

use crate::findings::{Fault, Finding, Judged};
use crate::lists::has_move;
use crate::parts::cut;
use crate::texts::{copy_text, move_text};
use hive_model::{Game, Move, MoveList};
use move_text::{MoveFault, read_move};
use std::alloc::{AllocError, Global};

/// The move that a part denotes on the game's board, or why it denotes none.
fn read_part<G: Game>(game: &G, part: &[u8]) -> Result<Move, MoveFault>
    requires { length part.now ≤ greatest_line }
    ensures { result ≡ move_of (G.history game.now).game_type
        (position (G.history game.now)).board part.now }
{
    game.lemma_sound();
    read_move(game.game_type(), game, part)
}

/// A part that is wrong.
fn wrong_part(alloc: Global, fault: Fault, part: &[u8]) -> Result<Judged, AllocError>
    ensures { IfOk result (λ j. j ≡ Judged.Wrong (finding fault part.now)) }
{
    let text = copy_text(alloc, part)?;
    Ok(Judged::Wrong(Finding { fault, text }))
}

/// The judgement of a part of a list, if these moves came before it.
fn judge_part<G: Game>(
    alloc: Global,
    game: &G,
    legal: &[Move],
    listed: &MoveList,
    part: &[u8],
) -> Result<Judged, AllocError>
    requires { length part.now ≤ greatest_line }
    ensures { let now = G.history game.now in IfOk result (λ j. j ≡ part_of legal.now listed.now
        part.now (move_of now.game_type (position now).board part.now)) }
{
    match read_part(game, part) {
        Err(_) => wrong_part(alloc, Fault::Unreadable, part),
        Ok(m) => {
            if has_move(legal, m.again()) {
                if has_move(listed.items(), m.again()) {
                    wrong_part(alloc, Fault::Twice, part)
                } else {
                    Ok(Judged::Next(m))
                }
            } else {
                wrong_part(alloc, Fault::Extra, part)
            }
        }
    }
}

/// The first legal move that is not on a list.
fn first_missing<G: Game>(
    alloc: Global,
    game: &G,
    legal: &[Move],
    listed: &[Move],
) -> Result<Option<Finding>, AllocError>
    requires { legal.now ≡ moves (position (G.history game.now)) }
    ensures { IfOk result (λ o. o
        ≡ first_missing (position (G.history game.now)).board listed.now legal.now) }
{
    for m in legal {
        if !has_move(listed, m.again()) {
            let text = move_text(alloc, game, m.again())?;
            return Ok(Some(Finding {
                fault: Fault::Missing,
                text,
            }));
        }
    }
    Ok(None)
}

/// The same for a list that was kept.
fn missing_in<G: Game>(
    alloc: Global,
    game: &G,
    legal: &[Move],
    listed: &MoveList,
) -> Result<Option<Finding>, AllocError>
    requires { legal.now ≡ moves (position (G.history game.now)) }
    ensures { IfOk result (λ o. o
        ≡ first_missing (position (G.history game.now)).board listed.now legal.now) }
{
    first_missing(alloc, game, legal, listed.items())
}

/// What is wrong with a line as the list of the legal moves of a game.
pub(crate) fn wrong_list<G: Game>(
    alloc: Global,
    game: &G,
    legal: &[Move],
    line: &[u8],
) -> Result<Option<Finding>, AllocError>
    requires legal { legal.now ≡ moves (position (G.history game.now)) }
    requires short { length line.now ≤ greatest_line }
    ensures { let now = G.history game.now in
        IfOk result (λ o. o ≡ wrong_list now.game_type (position now) line.now) }
{
    let mut listed = MoveList::new(alloc);
    let mut rest = line;
    'parts: loop {
        let (part, more) = cut(rest);
        match judge_part(alloc, game, legal, &listed, part)? {
            Judged::Wrong(finding) => return Ok(Some(finding)),
            Judged::Next(m) => {
                listed.push(m)?;
                match more {
                    None => return missing_in(alloc, game, legal, &listed),
                    Some(next) => rest = next,
                }
            }
        }
    }
}
