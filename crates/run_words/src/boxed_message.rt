ghost use Rattle.std.specs.Prelude.{◌≡◌, IfOk};

use lists::NoMemory;
use std::alloc::Global;
use std::boxed::Box;
use std::marker::Model;
use wire_forms::Message;

/// A message on the heap: few lines have one, and without it they are half as long. Contracts see the message.
#[derive(Drop)]
pub struct BoxedMessage {
    inner: Box<Message>,
}

impl Model for BoxedMessage {
    ghost use Rattle.wire_forms.specs.declared.message.Message.{Message};

    ghost Value = { Message };

    ghost view = { λ b. b.inner.value };
}

impl BoxedMessage {
    /// The message, on the heap.
    pub fn new(alloc: Global, message: Message) -> Result<BoxedMessage, NoMemory>
        ensures { IfOk result (λ b. b ≡ message) }
    {
        Ok(BoxedMessage {
            inner: Box::new(alloc, message)?,
        })
    }

    /// The message.
    pub fn get(&self) -> &Message
        ensures { result.now ≡ self.now }
    {
        &self.inner
    }
}
