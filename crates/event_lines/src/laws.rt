//! What holds of the texts of event lines. Each law is a function with nothing to do.
ghost use Rattle.std.specs.Prelude.{◌≡◌, ◌≢◌, ◌↔◌, ◌∷◌, ℕ, List, codes, true, None};
ghost use Rattle.quorum_rules.specs.Limits.{Numbers};
ghost use Rattle.text_lines.specs.Lines.{fields_of, Lacks};
ghost use Rattle.wire_forms.specs.declared.message.Message.{Message};
ghost use Rattle.message_texts.specs.Texts.{IsMessage, text_of};
ghost use Rattle.event_lines.specs.declared.line.ReplayLine.{ReplayLine};
ghost use Rattle.event_lines.specs.Forms.{event_cause};
ghost use Rattle.event_lines.specs.Lines.{IsEventLine, HasText, event_text, event_fields};
ghost use Rattle.event_lines.specs.Messages.{ask_forms, answer_forms, are_of, is_ask, is_answer};

/// The text of an event line has nothing wrong, and is that of no other event line.
pub fn event_lines_have_one_text()
    ensures accepted { (c : Numbers) (l : ReplayLine) → IsEventLine c l
        → event_cause c (event_text l) ≡ None }
    ensures one { (c : Numbers) (l k : ReplayLine) → IsEventLine c l → IsEventLine c k
        → event_text l ≡ event_text k → l ≡ k }
{}

/// The text of an event line comes apart into its fields, is one line, and is none that declares a liar.
pub fn event_lines_are_lines()
    ensures apart { (c : Numbers) (l : ReplayLine) → IsEventLine c l
        → fields_of (event_text l) ≡ event_fields l }
    ensures no_newline { (c : Numbers) (l : ReplayLine) → IsEventLine c l
        → Lacks 10 (event_text l) }
    ensures no_liar { (c : Numbers) (l : ReplayLine) (rest : List (List ℕ)) → IsEventLine c l
        → fields_of (event_text l) ≢ codes "liar" ∷ rest }
    ensures printed { (c : Numbers) (l : ReplayLine) → IsEventLine c l → HasText l }
{}

/// The forms of fields have the texts of asks and of answers, and no others.
pub fn messages_are_told_by_their_fields()
    ensures asks { (text : List ℕ) → (are_of ask_forms (fields_of text) ≡ true)
        ↔ ((m : Message) × IsMessage m × (is_ask m.body ≡ true) × (text ≡ text_of m)) }
    ensures answers { (text : List ℕ) → (are_of answer_forms (fields_of text) ≡ true)
        ↔ ((m : Message) × IsMessage m × (is_answer m.body ≡ true) × (text ≡ text_of m)) }
{}
