//! Laws of reading and encoding: public functions that do nothing, whose contracts are the laws.
ghost use Rattle.std.specs.Prelude.{◌≡◌, ℕ, ◌<◌, ◌^◌, List, Ok, length};
ghost use Rattle.coap_message.specs.Message.{Message};
ghost use Rattle.coap_message.specs.Spelling.{Spells, IsMessage, spelling, spelling_length};
ghost use Rattle.coap_message.specs.Reading.{read_message};
ghost use Rattle.coap_message.specs.Uint.{IsBytes, uint_of, uint_spelling, IsShortest};

/// No bytes encode two different messages.
pub fn one_message()
    ensures { (bytes : List ℕ) (m n : Message) → Spells bytes m → Spells bytes n → m ≡ n }
{}

/// No message has two encodings, and each has one: that of the function that writes it.
pub fn one_spelling()
    ensures no_two { (a b : List ℕ) (m : Message) → Spells a m → Spells b m → a ≡ b }
    ensures one { (m : Message) → IsMessage m → Spells (spelling m) m }
{}

/// The number of bytes of an encoding.
pub fn spelling_has_length()
    ensures { (m : Message) → length (spelling m) ≡ spelling_length m }
{}

/// Reading an encoding gives the message back.
pub fn spelling_is_read()
    ensures { (m : Message) → IsMessage m → read_message (spelling m) ≡ Ok m }
{}

/// A number is encoded by the shortest bytes that stand for it, and has no other shortest form.
pub fn uint_has_one_shortest_form()
    ensures value { (n : ℕ) → n < 2 ^ 64 → uint_of (uint_spelling n) ≡ n }
    ensures shortest { (n : ℕ) → IsShortest (uint_spelling n) }
    ensures no_other { (a b : List ℕ)
        → IsBytes a
        → IsBytes b
        → IsShortest a
        → IsShortest b
        → uint_of a ≡ uint_of b
        → a ≡ b }
{}
