//! What the commands write keeps their promises.
ghost use Rattle.std.specs.Prelude.{◌≡◌, ℕ, List, ◌++◌};
ghost use Rattle.mw_model.specs.Terms.Object.{Object};
ghost use Rattle.mw_model.specs.Reports.Request.{Request};
ghost use Rattle.mw_model.specs.Texts.Grammar.{trees};
ghost use Rattle.mw_model.specs.Reports.Report.{status_of};
ghost use Rattle.mw_commands.specs.Headlines.{Promised, IsBegun};
ghost use Rattle.mw_answers.specs.Statuses.{AreAnswers};
ghost use Rattle.mw_answers.specs.LastTexts.{IsLastText, refused_for};

use mw_commands::explaining::{explanations_again, explanations_possible};
use mw_commands::flattening::{flattenings_again, flattenings_possible};
use mw_commands::lowering::{lowerings_again, lowerings_possible};
use mw_commands::proving::tautologies_again;
use mw_commands::rechecking::logs_keep;
use mw_commands::slicing::{slices, slices_again};
use mw_print::labelled_texts_are_read;
use mw_reflect::reached_sound;
use mw_taut::tautologies_have_proofs;

/// The answers to all data of a book, with the last text, keep the promise of the request; those to the first data begin a text that
/// keeps it, since an answer to each of the other data may be written.
pub fn answers_promised()
    ensures whole { (q : Request) (bytes text last : List ℕ) → AreAnswers q (trees bytes).events text → IsLastText q (trees bytes).events (trees bytes).fault last → Promised q bytes (text ++ last) (status_of (trees bytes).fault (refused_for q (trees bytes).events)) }
    ensures begun { (q : Request) (bytes text : List ℕ) (given more : List Object) → (trees bytes).events ≡ given ++ more → AreAnswers q given text → IsBegun q bytes text }
{
    reached_sound();
    logs_keep();
    tautologies_again();
    lowerings_possible();
    lowerings_again();
    flattenings_possible();
    flattenings_again();
    slices();
    slices_again();
    explanations_possible();
    explanations_again();
    labelled_texts_are_read();
    tautologies_have_proofs();
}
