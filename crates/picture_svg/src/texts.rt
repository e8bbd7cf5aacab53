//! The texts of a picture, each at its point.
#![tactic(auto, using(crate::proofs::Joining::joining))]

ghost use Rattle.std.specs.Prelude.{◌≡◌, ◌∷◌, [], ◌++◌, decimal, map, OnOk};
ghost use Rattle.picture_svg.specs.Names.{actor_text};
ghost use Rattle.picture_svg.specs.Texts.{Said, said_of, some_said};

use crate::classes::Class;
use crate::picture::{Actor, add_actor};
use crate::px::Point;
use lists::NoMemory;
use std::alloc::Global;
use std::marker::Model;
use text_lines::Text;

/// A text at a point. Its class says whether it begins there, ends there or stands round it.
#[derive(Drop)]
pub struct Words {
    pub class: Class,
    pub point: Point,
    pub text: Text,
}

/// The texts of a picture. Contracts see their classes and what they say.
#[derive(Drop)]
pub struct Texts {
    alloc: Global,
    items: Vec<Words>,
}

impl Model for Texts {
    ghost use Rattle.std.specs.Prelude.{List, map};
    ghost use Rattle.picture_svg.specs.Texts.{Said, said_of};

    ghost Value = { List Said };

    ghost view = { λ s. map said_of s.items.items };
}

impl Texts {
    /// No texts.
    pub fn new(alloc: Global) -> Texts
        ensures { result ≡ [] }
    {
        Texts {
            alloc,
            items: Vec::new(alloc),
        }
    }

    /// The texts so far.
    pub fn items(&self) -> &[Words]
        ensures { map said_of result.now ≡ self.now }
    {
        self.items.as_slice()
    }

    /// The texts, given away.
    pub fn into_items(self) -> Vec<Words>
        ensures { map said_of result.items ≡ self }
    {
        self.items
    }

    /// Adds a text at a point.
    pub fn add(&mut self, class: Class, point: Point, words: &[u8]) -> Result<(), NoMemory>
        ensures { OnOk result (self.new
            ≡ self.old ++ (record { class = class; text = words.now }) ∷ []) }
    {
        let mut text = Text::new(self.alloc);
        text.add(words)?;
        self.push(Words { class, point, text })
    }

    fn push(&mut self, words: Words) -> Result<(), NoMemory>
        ensures { OnOk result (self.new ≡ self.old ++ said_of words ∷ []) }
    {
        Ok(self.items.push(words)?)
    }

    /// Adds a text at a point, if it isn't empty.
    pub fn add_some(&mut self, class: Class, point: Point, words: &[u8]) -> Result<(), NoMemory>
        ensures { OnOk result (self.new ≡ self.old ++ some_said class words.now) }
    {
        if words.is_empty() {
            return Ok(());
        }
        self.add(class, point, words)
    }

    /// Adds a number at a point.
    pub fn add_number(&mut self, class: Class, point: Point, number: u64) -> Result<(), NoMemory>
        ensures { OnOk result (self.new
            ≡ self.old ++ (record { class = class; text = decimal number }) ∷ []) }
    {
        let mut text = Text::new(self.alloc);
        text.add_number(number)?;
        self.push(Words { class, point, text })
    }

    /// Adds the name of one who takes part, at a point.
    pub fn add_name(&mut self, class: Class, point: Point, actor: Actor) -> Result<(), NoMemory>
        ensures { OnOk result (self.new
            ≡ self.old ++ (record { class = class; text = actor_text actor }) ∷ []) }
    {
        let mut text = Text::new(self.alloc);
        add_actor(&mut text, actor)?;
        self.push(Words { class, point, text })
    }
}
