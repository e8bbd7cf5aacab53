//! What the words of the top call and the traces of plans cover. Each law is a function with nothing to do.

ghost use Rattle.std.specs.Prelude.{◌≡◌, ℕ, List, Option, None, ◌≤◌, length, map};
ghost use Rattle.quorum_rules.specs.Limits.{Numbers, IsOfScripts};
ghost use Rattle.wire_forms.specs.Liars.{Liars};
ghost use Rattle.event_lines.specs.declared.line.ReplayLine.{ReplayLine};
ghost use Rattle.script_text.specs.Replays.{IsReplay, Spells, event_limit, replay_text};
ghost use Rattle.script_text.specs.Sum.{IsSum, sum_text};
ghost use Rattle.script_run.specs.Performing.{CommandQueues, Performs};
ghost use Rattle.history_making.specs.Books.{Book};
ghost use Rattle.history_book.specs.Reports.{report_text};
ghost use Rattle.history_book.specs.ReportTexts.{IsReport};
ghost use Rattle.history_book.specs.declared.judging.Flaw.{Flaw};
ghost use Rattle.protocol.specs.History.{NoClash};
ghost use Rattle.command_texts.specs.Replays.{cluster_of, Replays};
ghost use Rattle.command_texts.specs.Verdicts.{Judges};
ghost use Rattle.line_forms.specs.declared.refusal.ScriptFault.{ScriptFault};
ghost use Rattle.plan_words.specs.declared.plan.Plan.{Plan};
ghost use Rattle.plan_words.specs.Plans.{Fits};
ghost use Rattle.plan_text.specs.Plans.{Spells as SpellsPlan};
ghost use Rattle.command_texts.specs.Texts.{HasFault, IsAccepted};
ghost use Rattle.command_texts.specs.declared.words.Serving.{Serving as Servings};
ghost use Rattle.event_lines.specs.declared.line.ReplayLine.TheVariants.{Plain};
ghost use Rattle.journals.specs.declared.whole.Journals.{Journals};
ghost use Rattle.command_texts.specs.Traces.{TracesPlan};

use command_texts::Command;

/// What well-formed inputs are accepted, so that the program answers them unless the outside fails or memory is wanting: a
/// script whose lines can take place one after the other, a configuration with a value of its blocks' length, and the report of
/// a history.
pub fn well_formed_inputs_are_accepted()
    ensures replays { (input : List ℕ) (c : Numbers) (liars : Liars)
        (lines : List ReplayLine) (queues : CommandQueues)
        → IsReplay c liars lines → Spells input c liars lines
        → Performs (cluster_of c liars) c lines queues
        → IsAccepted Command.Replay input }
    ensures sums { (c : Numbers) (v : List ℕ) → IsSum c v
        → IsAccepted Command.Sum (sum_text c v) }
    ensures reports { (book : Book) → IsReport book
        → IsAccepted Command.Check (report_text book) }
{}

/// A text that spells a plan that can be run is no bad script for `run` and `trace`.
pub fn plans_are_no_bad_scripts()
    ensures run { (serving : Servings) (input : List ℕ) (plan : Plan) (fault : ScriptFault)
        → Fits plan → SpellsPlan input plan → HasFault (Command.Run serving) input fault → ⊥ }
    ensures trace { (serving : Servings) (input : List ℕ) (plan : Plan) (fault : ScriptFault)
        → Fits plan → SpellsPlan input plan → HasFault (Command.Trace serving) input fault → ⊥ }
{}

/// Each verdict on what `replay` writes is `legal`, where no two different strings that were seen share a digest. `check` gives no
/// verdict on a text of more than 4,194,304 bytes: it ends with `TooLong`.
pub fn replays_are_legal()
    ensures { (input text verdict : List ℕ) (flaw : Option Flaw) → (r : Replays input text)
        → NoClash (cluster_of r.config r.liars) r.queues.world → Judges text verdict flaw
        → flaw ≡ None }
{}

/// The script that a trace shows is one that `replay` takes, and it writes the trace's report, where a script can describe the
/// plan's cluster, as it can where the plan was read, and there are no more lines than a script may have. It can write nothing else.
pub fn traces_replay()
    ensures replays { (plan : Plan) (journals : Journals) (text : List ℕ)
        → (t : TracesPlan plan journals text) → IsOfScripts plan.config
        → length t.run.made.lines ≤ event_limit plan.config
        → Replays (replay_text plan.config plan.liars (map Plain t.run.made.lines)) t.report }
    ensures only { (plan : Plan) (journals : Journals) (text written : List ℕ)
        → (t : TracesPlan plan journals text) → IsOfScripts plan.config
        → length t.run.made.lines ≤ event_limit plan.config
        → Replays (replay_text plan.config plan.liars (map Plain t.run.made.lines)) written
        → written ≡ t.report }
{
    command_texts::laws::plans_declare();
    command_texts::laws::scripts_have_one_report();
    script_text::laws::replays_are_spelled();
}
