//! Checks of certificates that cite.

ghost use Rattle.std.specs.Prelude.{◌≡◌, ◌≤◌, map};
ghost use Rattle.hive_model.specs.Histories.{position};
ghost use Rattle.strategy_lemmas.specs.declared.tokens.Token.{Token as AnyToken};
ghost use Rattle.strategy_lemmas.specs.Cited.{CitedSteps};
ghost use Rattle.strategy_lemmas.specs.CitedChecks.{cited_faults};
ghost use Rattle.certificate_citing.specs.TokenText.{token_in};
ghost use Rattle.command_runs.specs.Runs.{side_of};
ghost use Rattle.certificate_verdicts.specs.Judging.{JudgesAhead};
ghost use Rattle.certificate_walks.specs.Claims.{IsClaimOf};
ghost use Rattle.certificate_commands.specs.Verdicts.{of_tokens, of_why, why-decides};

use crate::checking::HEAD_LINES;
use certificate_citing::LineTokens;
use certificate_verdicts::{IndexReasons, Reasons, TextVerdict, Unread, verdict_of};
use hive_model::{Game, MoveStack};
use io_edge::Source;
use line_feed::LineReader;
use strategy_check::{Claim, Why};
use strategy_lemmas::{Lemmas, WhyCited, check_cited};

/// The verdict for a fault of tokens.
fn fault_of(place: u64, why: WhyCited) -> TextVerdict
    ensures { result ≡ of_why place why }
{
    match why {
        WhyCited::NoSuchMove => IndexReasons::refused(Why::NoSuchMove, place),
        WhyCited::BadIndex => IndexReasons::refused(Why::BadIndex, place),
        WhyCited::BadCite => TextVerdict::BadCite { place },
        WhyCited::LeafFails => IndexReasons::refused(Why::LeafFails, place),
        WhyCited::TooShort => IndexReasons::refused(Why::TooShort, place),
        WhyCited::Rest => IndexReasons::refused(Why::Rest, place),
    }
}

/// The reasons for which texts of tokens are refused.
struct TokenReasons;

impl Reasons for TokenReasons {
    type Why = WhyCited;

    ghost Steps = { CitedSteps };

    ghost Item = { AnyToken };

    ghost faults = { cited_faults };

    ghost refusal = { of_why };

    ghost decides = { why-decides };

    fn refused(why: WhyCited, place: u64) -> TextVerdict {
        fault_of(place, why)
    }
}

/// The verdict on the lines to come as the tokens of a claim about the game's position.
pub(crate) fn judge_tokens<S: Source, G: Game>(
    reader: &mut LineReader,
    input: &mut S,
    game: &mut G,
    claim: &Claim,
    lemmas: &mut Lemmas,
    stack: &mut MoveStack,
) -> Result<TextVerdict, Unread>
    requires claim { IsClaimOf (G.history game.old) claim.now.depth claim.now.value }
    requires room { claim.now.depth ≤ stack.old.free }
    ensures { JudgesAhead 5 (λ left. of_tokens (position (G.history game.old))
        claim.now.depth claim.now.best claim.now.value (map token_in left)) 5 result reader.old
        (side_of S.rest S.read_faults input.old) (side_of S.rest S.read_faults input.new) }
{
    let mut tokens = LineTokens::new(reader, input);
    let checked = check_cited(game, claim, &mut tokens, lemmas, stack);
    verdict_of::<TokenReasons>(checked, HEAD_LINES, tokens.lines())
}
