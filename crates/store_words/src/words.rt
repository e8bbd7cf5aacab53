ghost use Rattle.std.specs.Prelude.{◌≡◌, ◌≢◌, ◌==◌, ◌<◌, ◌^◌, ℕ, Bool, [], ◌∷◌, nat_lt, length, Some, None, IfOk, IfErr, OnOk, MatchResult, codes};
ghost use Rattle.quorum_rules.specs.Limits.{Numbers, IsValid};
ghost use Rattle.text_lines.specs.Fields.{number_of};
ghost use Rattle.store_words.specs.Words.{texts, number_words, Asks, Creates, Renews};
ghost use Rattle.store_words.specs.Causes.{cause, counted, cluster_of, numbers_cause, create_cause, place_cause, renew_cause};

use crate::refusal::BadWords;
use quorum_rules::Config;
use text_lines::number_u32;

/// What the program is asked to do.
#[derive(Clone, Copy)]
pub enum Command {
    /// To tell the words.
    Help,
    /// To tell the version.
    Version,
    /// To make a store of these numbers.
    Create(Config),
    /// To serve the device.
    Serve,
    /// To tell of each node whether it is up.
    Status,
    /// To read every block, and restore every node.
    Scrub,
    /// To give the node of this number, counted from 0, a new directory.
    Renew(u32),
}

/// A command, and the directories that it is to work on, in the order of nodes.
#[derive(Clone, Copy)]
pub struct Asked<'a> {
    pub command: Command,
    pub folders: &'a [String],
}

/// What words ask for; BadWords tells their first fault, where they are no command's.
pub fn read_words(words: &[String]) -> Result<Asked<'_>, BadWords>
    ensures asks { IfOk result (λ a. Asks (texts words.now) a.command (texts a.folders.now)) }
    ensures cause { MatchResult result (λ _. cause (texts words.now) ≡ None) (λ why. cause (texts words.now) ≡ Some why) }
{
    let Some((word, rest)) = words.split_first() else {
        return Err(BadWords::WrongCount);
    };
    match word.as_str() {
        "--help" => alone(Command::Help, rest),
        "--version" => alone(Command::Version, rest),
        "serve" => with_folders(Command::Serve, rest),
        "status" => with_folders(Command::Status, rest),
        "scrub" => with_folders(Command::Scrub, rest),
        "create" => to_create(rest),
        "renew" => to_renew(rest),
        _ => Err(BadWords::NoCommand),
    }
}

// A command behind which nothing stands.
fn alone<'a>(command: Command, folders: &'a [String]) -> Result<Asked<'a>, BadWords>
    ensures ok { IfOk result (λ a. (a.command ≡ command) × (a.folders.now ≡ folders.now) × (length folders.now ≡ 0)) }
    ensures cause { MatchResult result (λ _. counted (length folders.now == 0) ≡ None) (λ why. counted (length folders.now == 0) ≡ Some why) }
{
    if folders.is_empty() {
        Ok(Asked { command, folders })
    } else {
        Err(BadWords::WrongCount)
    }
}

// A command with directories, of which there is at least one.
fn with_folders<'a>(command: Command, folders: &'a [String]) -> Result<Asked<'a>, BadWords>
    ensures ok { IfOk result (λ a. (a.command ≡ command) × (a.folders.now ≡ folders.now) × (0 < length folders.now)) }
    ensures cause { MatchResult result (λ _. counted (nat_lt 0 (length folders.now)) ≡ None)
        (λ why. counted (nat_lt 0 (length folders.now)) ≡ Some why) }
{
    if folders.is_empty() {
        Err(BadWords::WrongCount)
    } else {
        Ok(Asked { command, folders })
    }
}

// The words behind `create`.
fn to_create(words: &[String]) -> Result<Asked<'_>, BadWords>
    ensures creates { IfOk result (λ a. (c : Numbers) × (a.command ≡ Command.Create c)
        × Creates (texts words.now) c (texts a.folders.now)) }
    ensures cause { MatchResult result (λ _. create_cause (texts words.now) ≡ None) (λ why. create_cause (texts words.now) ≡ Some why) }
{
    let [n, t, b, qc, m, size, blocks, folders @ ..] = words else {
        return Err(BadWords::WrongCount);
    };
    let config = config_of(
        n.as_str(),
        t.as_str(),
        b.as_str(),
        qc.as_str(),
        m.as_str(),
        size.as_str(),
        blocks.as_str(),
    )?;
    if folders.len() != config.n() as usize {
        return Err(BadWords::WrongCount);
    }
    let command = Command::Create(config);
    Ok(Asked { command, folders })
}

// The configuration that these words spell.
fn config_of(
    n: &str,
    t: &str,
    b: &str,
    qc: &str,
    m: &str,
    size: &str,
    blocks: &str,
) -> Result<Config, BadWords>
    ensures is { IfOk result (λ c. c ≡ cluster_of n.now t.now b.now qc.now m.now size.now blocks.now) }
    ensures spelled { IfOk result (λ c. n.now ∷ t.now ∷ b.now ∷ qc.now ∷ m.now ∷ size.now ∷ blocks.now ∷ [] ≡ number_words c) }
    ensures valid { IfOk result (λ c. IsValid c) }
    ensures well { OnOk result ((is_each : Bool) → numbers_cause n.now t.now b.now qc.now m.now size.now blocks.now is_each ≡ counted is_each) }
    ensures cause { IfErr result (λ why. (is_each : Bool) → numbers_cause n.now t.now b.now qc.now m.now size.now blocks.now is_each ≡ Some why) }
{
    let n = number(n)?;
    let t = number(t)?;
    let b = number(b)?;
    let qc = number(qc)?;
    let m = number(m)?;
    let size = number(size)?;
    let blocks = number(blocks)?;
    match Config::fourth(n, t, b, qc, m, size, blocks) {
        Ok(config) => Ok(config),
        Err(fault) => Err(BadWords::BadCluster(fault)),
    }
}

// The words behind `renew`.
fn to_renew(words: &[String]) -> Result<Asked<'_>, BadWords>
    ensures renews { IfOk result (λ a. (node : ℕ) × (a.command ≡ Command.Renew node)
        × Renews (texts words.now) node (texts a.folders.now)) }
    ensures cause { MatchResult result (λ _. renew_cause (texts words.now) ≡ None) (λ why. renew_cause (texts words.now) ≡ Some why) }
{
    let [node, folders @ ..] = words else {
        return Err(BadWords::WrongCount);
    };
    let node = number(node.as_str())?;
    if node as usize >= folders.len() {
        return Err(BadWords::NoNode);
    }
    check_place(folders[node as usize].as_str())?;
    let command = Command::Renew(node);
    Ok(Asked { command, folders })
}

// The word in the place of the directory of `renew` names one.
fn check_place(folder: &str) -> Result<(), BadWords>
    ensures named { OnOk result (folder.now ≢ codes "-") }
    ensures cause { MatchResult result (λ _. place_cause folder.now ≡ None) (λ why. place_cause folder.now ≡ Some why) }
{
    if folder == "-" {
        return Err(BadWords::NoPlace);
    }
    Ok(())
}

// The number that a word spells.
fn number(word: &str) -> Result<u32, BadWords>
    ensures ok { IfOk result (λ n. number_of (2 ^ 32) word.now ≡ Some n) }
    ensures err { IfErr result (λ why. (number_of (2 ^ 32) word.now ≡ None) × (why ≡ BadWords.BadNumber)) }
{
    number_u32(word.as_bytes()).ok_or(BadWords::BadNumber)
}
