//! The liar lines of a replay script.
#![tactic(auto, using(text_lines::proofs::lemmas::Spelled::spelled, std::proofs::lemmas::Grind::common_steps))]

ghost use Rattle.std.specs.Prelude.{◌≡◌, ◌∷◌, ◌++◌, ◌≤◌, ◌<◌, [], ℕ, List, true, false, codes, drop, length, map, IfNone, IfOk, IfErr, IfSome, OnErr, OnOk, Some, None};
ghost use Rattle.quorum_rules.specs.Limits.{Numbers, IsValid, IsOfScripts};
ghost use Rattle.text_lines.specs.Lines.{fields_of, parts_of, text_of_lines, texts};
ghost use Rattle.line_forms.specs.Heads.{head_lines};
ghost use Rattle.line_forms.specs.Kinds.{form_cause, client as client_kind, node as node_kind};
ghost use Rattle.line_forms.specs.Kinds.Kind.{word};
ghost use Rattle.line_forms.specs.Tables.{Gives};
ghost use Rattle.line_forms.specs.Texts.{IsRefusal, ReadsTo};
ghost use Rattle.event_lines.specs.Forms.{fields_cause};
ghost use Rattle.script_text.specs.Replays.{AreAscendingLiars, IsDeclarable, declarations, field_at, is_liar_line, liar_fields, liar_forms, liar_line, replay_cause, replay_script, with_declared};
ghost use Rattle.script_text.specs.Reading.{AreAscending, AreDeclared, FrontRead, again_cause};

use line_forms::{Cause, LineRefusal, ScriptRefusal, refused};
use lists::NoMemory;
use quorum_rules::Config;
use std::alloc::Global;
use text_lines::{Text, cut, fields, number_u8, number_u32};
use wire_forms::Liars;

/// Who a liar line declares lying.
#[derive(Clone, Copy)]
pub enum Declared {
    Node(u8),
    Client(u32),
}

/// What stands before the event lines of a replay script.
#[derive(Drop)]
pub struct Front {
    pub config: Config,
    pub liars: Liars,
    /// Where the event lines begin in the text.
    pub at: usize,
    /// The number of the first event line, counted from 1.
    pub number: u64,
}

/// The liars that a script declares from a place on, where its head lines end.
pub fn read_liars(
    alloc: Global,
    config: Config,
    text: &[u8],
    at: usize,
) -> Result<Front, ScriptRefusal>
    requires valid { IsValid config }
    requires of_scripts { IsOfScripts config }
    requires within { at ≤ length text.now }
    requires head { ReadsTo replay_script text.now (head_lines config) (drop at text.now) }
    ensures front { IfOk result (FrontRead text.now) }
    ensures config { IfOk result (λ front. front.config ≡ config) }
    ensures fault { IfErr result (IsRefusal replay_script text.now) }
{
    let mut liars = Liars::none(alloc);
    let mut rest = &text[at..];
    let mut number = 3;
    while let Some((line, after)) = next_liar_line(rest) {
        let declared = match next_declared(alloc, &config, &liars, line) {
            Ok(declared) => declared,
            Err(refusal) => return Err(refused(number, refusal)),
        };
        declare(&mut liars, declared)?;
        number += 1;
        rest = after;
    }
    Ok(Front {
        config,
        liars,
        at: text.len() - rest.len(),
        number,
    })
}

/// Whether the first word of a line is `liar`.
pub fn is_liar_line(line: &[u8]) -> bool
    ensures { result ≡ is_liar_line line.now }
{
    first_word(line) == b"liar".as_slice()
}

fn first_word(line: &[u8]) -> &[u8]
    ensures { result.now ≡ field_at 0 line.now }
{
    match cut(line, b' ') {
        Some((word, _)) => word,
        None => line,
    }
}

// The liar line at the front of a text, and what stands after it.
fn next_liar_line(text: &[u8]) -> Option<(&[u8], &[u8])>
    ensures parts { IfSome result
        (λ found. parts_of text.now ≡ found.0.now ∷ parts_of found.1.now) }
    ensures shorter { IfSome result (λ found. length found.1.now < length text.now) }
    ensures liar { IfSome result (λ found. is_liar_line found.0.now ≡ true) }
    ensures none { IfNone result
        ((line after : List ℕ) → parts_of text.now ≡ line ∷ parts_of after
        → is_liar_line line ≡ false) }
{
    let (line, after) = cut(text, b'\n')?;
    if is_liar_line(line) {
        Some((line, after))
    } else {
        None
    }
}

// What a liar line declares beside these liars.
fn next_declared(
    alloc: Global,
    config: &Config,
    liars: &Liars,
    line: &[u8],
) -> Result<Declared, LineRefusal>
    requires { is_liar_line line.now ≡ true }
    ensures { (declared : List Declared) → AreDeclared config.now declared liars.now
        → Gives (λ d. (liar_line d ≡ line.now) × IsDeclarable config.now d
        × (again_cause config.now liars.now d ≡ None))
        (replay_cause config.now (map liar_line declared) line.now) result }
{
    let declared = read_declared(alloc, config, line)?;
    refuse_again(config, liars, declared)?;
    Ok(declared)
}

// Refuses to declare somebody again, or more nodes than may lie.
fn refuse_again(config: &Config, liars: &Liars, declared: Declared) -> Result<(), Cause>
    ensures ok { OnOk result (again_cause config.now liars.now declared ≡ None) }
    ensures err { IfErr result (λ cause. again_cause config.now liars.now declared ≡ Some cause) }
{
    let most = config.b() as usize;
    match declared {
        Declared::Node(node) if liars.node(node) => Err(Cause::Twice),
        Declared::Node(_) if liars.node_count() >= most => Err(Cause::TooManyLiars),
        Declared::Client(client) if liars.client(client) => Err(Cause::Twice),
        _ => Ok(()),
    }
}

fn declare(liars: &mut Liars, declared: Declared) -> Result<(), NoMemory>
    ensures ok { OnOk result (liars.new ≡ with_declared liars.old declared) }
    ensures err { OnErr result (liars.new ≡ liars.old) }
    ensures ascending { AreAscending liars.old → AreAscending liars.new }
{
    match declared {
        Declared::Node(node) => liars.add_node(node),
        Declared::Client(client) => liars.add_client(client),
    }
}

// What a liar line declares, whatever others do.
fn read_declared(alloc: Global, config: &Config, line: &[u8]) -> Result<Declared, LineRefusal>
    requires { is_liar_line line.now ≡ true }
    ensures { Gives (λ d. (liar_fields d ≡ fields_of line.now) × IsDeclarable config.now d)
        (fields_cause (liar_forms config.now) (drop 1 (fields_of line.now))) result }
{
    let fields = fields(alloc, line)?;
    let Some((_word, fields)) = fields.as_slice().split_first() else {
        return Err(LineRefusal::Cause(Cause::WrongCount));
    };
    declared_in(config, fields)
}

fn declared_in(config: &Config, fields: &[&[u8]]) -> Result<Declared, LineRefusal>
    ensures { Gives (λ d. (liar_fields d ≡ codes "liar" ∷ texts fields.now)
        × IsDeclarable config.now d)
        (fields_cause (liar_forms config.now) (texts fields.now)) result }
{
    let Some((kind, fields)) = fields.split_first() else {
        return Err(LineRefusal::Cause(Cause::WrongCount));
    };
    if *kind == b"node".as_slice() {
        return node_in(config, fields);
    }
    if *kind == b"client".as_slice() {
        return client_in(fields);
    }
    Err(LineRefusal::Cause(Cause::UnknownWord))
}

fn node_in(config: &Config, fields: &[&[u8]]) -> Result<Declared, LineRefusal>
    ensures { Gives (λ d. (liar_fields d ≡ codes "liar" ∷ codes "node" ∷ texts fields.now)
        × IsDeclarable config.now d)
        (form_cause (word (codes "node" ∷ []) ∷ node_kind config.now.n ∷ [])
        (codes "node" ∷ texts fields.now)) result }
{
    let [field] = fields else {
        return Err(LineRefusal::Cause(Cause::WrongCount));
    };
    if field.is_empty() {
        return Err(LineRefusal::Cause(Cause::WrongCount));
    }
    let node = number_u8(field).ok_or(Cause::BadNumber)?;
    if u32::from(node) >= config.n() {
        return Err(LineRefusal::Cause(Cause::OutOfRange));
    }
    Ok(Declared::Node(node))
}

fn client_in(fields: &[&[u8]]) -> Result<Declared, LineRefusal>
    ensures { Gives (λ d. (liar_fields d ≡ codes "liar" ∷ codes "client" ∷ texts fields.now)
        × ((c : Numbers) → IsDeclarable c d))
        (form_cause (word (codes "client" ∷ []) ∷ client_kind ∷ [])
        (codes "client" ∷ texts fields.now)) result }
{
    let [field] = fields else {
        return Err(LineRefusal::Cause(Cause::WrongCount));
    };
    if field.is_empty() {
        return Err(LineRefusal::Cause(Cause::WrongCount));
    }
    let client = number_u32(field).ok_or(Cause::BadNumber)?;
    if client < 1 || client > 1000 {
        return Err(LineRefusal::Cause(Cause::OutOfRange));
    }
    Ok(Declared::Client(client))
}

/// Adds a line for each liar, nodes first and both ascending.
pub fn add_liars(text: &mut Text, config: &Config, liars: &Liars) -> Result<(), NoMemory>
    requires { AreAscendingLiars config.now liars.now }
    ensures { OnOk result (text.new
        ≡ text.old ++ text_of_lines (map liar_line (declarations liars.now))) }
{
    add_nodes(text, config, liars)?;
    add_clients(text, config, liars)
}

fn add_nodes(text: &mut Text, config: &Config, liars: &Liars) -> Result<(), NoMemory>
    requires { AreAscendingLiars config.now liars.now }
    ensures { OnOk result (text.new
        ≡ text.old ++ text_of_lines (map (λ n. liar_line (Declared.Node n)) liars.now.nodes)) }
{
    for node in 0..config.n() as u8 {
        if liars.node(node) {
            text.add(b"liar node ")?;
            text.add_number(u64::from(node))?;
            text.add_newline()?;
        }
    }
    Ok(())
}

fn add_clients(text: &mut Text, config: &Config, liars: &Liars) -> Result<(), NoMemory>
    requires { AreAscendingLiars config.now liars.now }
    ensures { OnOk result (text.new
        ≡ text.old ++ text_of_lines (map (λ k. liar_line (Declared.Client k)) liars.now.clients)) }
{
    for client in 1..1001 {
        if liars.client(client) {
            text.add(b"liar client ")?;
            text.add_number(u64::from(client))?;
            text.add_newline()?;
        }
    }
    Ok(())
}
