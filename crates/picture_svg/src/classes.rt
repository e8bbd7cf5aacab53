//! How the parts of a picture look: a class for each look, with its style.
ghost use Rattle.std.specs.Prelude.{◌≡◌, OnOk, IfOk};
ghost use Rattle.text_lines.specs.Lines.{Lacks};
ghost use Rattle.picture_svg.specs.Classes.{class_name};

use lists::NoMemory;
use std::alloc::Global;
use text_lines::Text;

/// How a part of a picture looks, texts first. A message that a liar told has a class of its own, as a phase that never ended has.
#[derive(Clone, Copy, PartialEq, Eq)]
pub enum Class {
    Caption,
    Place,
    Line,
    Label,
    Note,
    Head,
    Lies,
    Title,
    Report,
    Legend,
    Stripe,
    Band,
    Life,
    Liar,
    Ask,
    AskLie,
    Answer,
    AnswerLie,
    Stale,
    StaleLie,
    Lost,
    LostLie,
    Never,
    NeverLie,
    Ring,
    Cross,
    Times,
    TimesOpen,
    Store,
    StoreOpen,
    Round,
    RoundOpen,
    Repair,
    RepairOpen,
    Crash,
    Back,
    Prune,
    Holds,
}

/// All classes.
pub const CLASSES: [Class; 38] = [
    Class::Caption,
    Class::Place,
    Class::Line,
    Class::Label,
    Class::Note,
    Class::Head,
    Class::Lies,
    Class::Title,
    Class::Report,
    Class::Legend,
    Class::Stripe,
    Class::Band,
    Class::Life,
    Class::Liar,
    Class::Ask,
    Class::AskLie,
    Class::Answer,
    Class::AnswerLie,
    Class::Stale,
    Class::StaleLie,
    Class::Lost,
    Class::LostLie,
    Class::Never,
    Class::NeverLie,
    Class::Ring,
    Class::Cross,
    Class::Times,
    Class::TimesOpen,
    Class::Store,
    Class::StoreOpen,
    Class::Round,
    Class::RoundOpen,
    Class::Repair,
    Class::RepairOpen,
    Class::Crash,
    Class::Back,
    Class::Prune,
    Class::Holds,
];

impl Class {
    /// Its name.
    pub fn name(self) -> &'static [u8]
        ensures { result.now ≡ class_name self }
    {
        match self {
            Class::Caption => b"caption",
            Class::Place => b"place",
            Class::Line => b"line",
            Class::Label => b"label",
            Class::Note => b"note",
            Class::Head => b"head",
            Class::Lies => b"lies",
            Class::Title => b"title",
            Class::Report => b"report",
            Class::Legend => b"legend",
            Class::Stripe => b"stripe",
            Class::Band => b"band",
            Class::Life => b"life",
            Class::Liar => b"liar",
            Class::Ask => b"ask",
            Class::AskLie => b"ask-lie",
            Class::Answer => b"answer",
            Class::AnswerLie => b"answer-lie",
            Class::Stale => b"stale",
            Class::StaleLie => b"stale-lie",
            Class::Lost => b"lost",
            Class::LostLie => b"lost-lie",
            Class::Never => b"never",
            Class::NeverLie => b"never-lie",
            Class::Ring => b"ring",
            Class::Cross => b"cross",
            Class::Times => b"times",
            Class::TimesOpen => b"times-open",
            Class::Store => b"store",
            Class::StoreOpen => b"store-open",
            Class::Round => b"round",
            Class::RoundOpen => b"round-open",
            Class::Repair => b"repair",
            Class::RepairOpen => b"repair-open",
            Class::Crash => b"crash",
            Class::Back => b"back",
            Class::Prune => b"prune",
            Class::Holds => b"holds",
        }
    }

    /// Its style, a line; that of all texts stands for some.
    fn style(self) -> &'static [u8]
        ensures { Lacks 60 result.now }
    {
        match self {
            Class::Caption | Class::Line | Class::Note | Class::Report | Class::Legend => b"",
            Class::Place => b".place { text-anchor: end; }\n",
            Class::Label => b".label { font-weight: bold; text-anchor: end; }\n",
            Class::Head => b".head { font-weight: bold; text-anchor: middle; }\n",
            Class::Lies => b".lies { fill: #d1495b; text-anchor: middle; }\n",
            Class::Title => b".title { font-weight: bold; }\n",
            Class::Stripe => b".stripe { fill: #8c959f; fill-opacity: .1; }\n",
            Class::Band => b".band { fill: #8c959f; fill-opacity: .3; }\n",
            Class::Life => b".life { stroke: #8c959f; stroke-width: 1; }\n",
            Class::Liar => b".liar { stroke: #d1495b; stroke-width: 1; stroke-dasharray: 6 3; }\n",
            Class::Ask =>
                b".ask { fill: none; stroke: #4682b4; stroke-width: 2.2; marker-end: url(#ask); }\n",
            Class::AskLie =>
                b".ask-lie { fill: none; stroke: #d1495b; stroke-width: 2.2; marker-start: url(#lie); marker-end: url(#ask-lie); }\n",
            Class::Answer =>
                b".answer { fill: none; stroke: #4682b4; stroke-width: 1; marker-end: url(#answer); }\n",
            Class::AnswerLie =>
                b".answer-lie { fill: none; stroke: #d1495b; stroke-width: 1; marker-start: url(#lie); marker-end: url(#answer-lie); }\n",
            Class::Stale =>
                b".stale { fill: none; stroke: #8c959f; stroke-width: 1; marker-end: url(#stale); }\n",
            Class::StaleLie =>
                b".stale-lie { fill: none; stroke: #d1495b; stroke-width: 1; marker-start: url(#lie); marker-end: url(#stale-lie); }\n",
            Class::Lost =>
                b".lost { fill: none; stroke: #c2691c; stroke-width: 1.4; stroke-dasharray: 6 3; }\n",
            Class::LostLie =>
                b".lost-lie { fill: none; stroke: #d1495b; stroke-width: 1.4; stroke-dasharray: 6 3; marker-start: url(#lie); }\n",
            Class::Never =>
                b".never { fill: none; stroke: #8c959f; stroke-width: 1.4; stroke-dasharray: 1.5 3; }\n",
            Class::NeverLie =>
                b".never-lie { fill: none; stroke: #d1495b; stroke-width: 1.4; stroke-dasharray: 1.5 3; marker-start: url(#lie); }\n",
            Class::Ring => b".ring { fill: none; stroke: #8c959f; stroke-width: 1.2; }\n",
            Class::Cross => b".cross { fill: none; stroke: #c2691c; stroke-width: 2; }\n",
            Class::Times => b".times { fill: #d9a441; fill-opacity: .45; stroke: #d9a441; }\n",
            Class::TimesOpen =>
                b".times-open { fill: #d9a441; fill-opacity: .2; stroke: #d9a441; stroke-dasharray: 3 2; }\n",
            Class::Store => b".store { fill: #d9a441; stroke: #d9a441; }\n",
            Class::StoreOpen =>
                b".store-open { fill: #d9a441; fill-opacity: .2; stroke: #d9a441; stroke-dasharray: 3 2; }\n",
            Class::Round => b".round { fill: #4fa3a5; fill-opacity: .45; stroke: #4fa3a5; }\n",
            Class::RoundOpen =>
                b".round-open { fill: #4fa3a5; fill-opacity: .2; stroke: #4fa3a5; stroke-dasharray: 3 2; }\n",
            Class::Repair => b".repair { fill: #9b6bd6; stroke: #9b6bd6; }\n",
            Class::RepairOpen =>
                b".repair-open { fill: #9b6bd6; fill-opacity: .2; stroke: #9b6bd6; stroke-dasharray: 3 2; }\n",
            Class::Crash => b".crash { fill: none; stroke: #d1495b; stroke-width: 2.5; }\n",
            Class::Back => b".back { fill: none; stroke: #2f9e5b; stroke-width: 2; }\n",
            Class::Prune => b".prune { fill: none; stroke: #9b6bd6; stroke-width: 2; }\n",
            Class::Holds => b".holds { fill: #2f9e5b; }\n",
        }
    }
}

/// The style of all texts: of a middle tone, which a light and a dark ground both let stand out.
const TEXTS: &[u8] =
    b"text { font: 12px ui-monospace, Menlo, Consolas, 'DejaVu Sans Mono', monospace; fill: #6e7781; white-space: pre; }
";

/// Texts that follow the reader's scheme.
const TEXT_SCHEMES: &[u8] = b"@media (prefers-color-scheme: light) { text { fill: #24292f; } }
@media (prefers-color-scheme: dark) { text { fill: #d0d7de; } }
";

/// The ground of heads that are drawn again, which follows it too and then hides what is below.
const BAND_SCHEMES: &[u8] =
    b"@media (prefers-color-scheme: light) { .band { fill: #eaeef2; fill-opacity: 1; } }
@media (prefers-color-scheme: dark) { .band { fill: #21262d; fill-opacity: 1; } }
";

/// The styles of all texts and of these classes.
pub fn styles_of(alloc: Global, used: &[Class]) -> Result<Text, NoMemory>
    ensures { IfOk result (λ styles. Lacks 60 styles) }
{
    let mut styles = Text::new(alloc);
    styles.add(TEXTS)?;
    add_styles(&mut styles, used)?;
    styles.add(TEXT_SCHEMES)?;
    if used.contains(&Class::Band) {
        styles.add(BAND_SCHEMES)?;
    }
    Ok(styles)
}

/// Adds the styles of classes, in the order of all.
fn add_styles(styles: &mut Text, used: &[Class]) -> Result<(), NoMemory>
    requires { Lacks 60 styles.now }
    ensures { OnOk result (Lacks 60 styles.new) }
{
    for class in &CLASSES {
        if used.contains(class) {
            styles.add(class.style())?;
        }
    }
    Ok(())
}
