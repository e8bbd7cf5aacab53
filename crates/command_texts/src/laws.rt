//! What holds of each plan, and of each script. Each law is a function with nothing to do.

ghost use Rattle.std.specs.Prelude.{◌≡◌, ℕ, List, []};
ghost use Rattle.plan_followed.specs.Laws.{OfPlans};
ghost use Rattle.command_texts.specs.Replays.{Replays};
ghost use Rattle.command_texts.specs.ScriptLiars.{HasScriptLiars};

/// The liars of a plan that fits are nodes of its cluster, no more than may lie, and clients, each once and ascending: so a script
/// may declare them.
pub fn plans_declare()
    ensures { OfPlans HasScriptLiars }
{
    plan_followed::laws::plans();
}

/// A script has one report: `replay` can't write another text of it.
pub fn scripts_have_one_report()
    ensures { (input text other : List ℕ) → Replays input text → Replays input other → text ≡ other }
{}

/// Where a script declares no lying client, the report that `replay` writes of it counts no write as spent.
pub fn honest_scripts_spend_nothing()
    ensures { (input text : List ℕ) (r : Replays input text) → r.liars.clients ≡ []
        → r.book.counts.spent ≡ 0 }
{
    protocol::laws::spent();
}
