// What holds of every input. There is no code here.
ghost use Rattle.std.specs.Prelude.{◌≡◌, ◌≤◌, ◌∷◌, ◌++◌, [], List, ℕ, length};
ghost use Rattle.asl_base_protocol.specs.declared.item.Item.{Item};
ghost use Rattle.asl_base_protocol.specs.Grammar.{longest_content, Reads};
ghost use Rattle.asl_base_protocol.specs.Message.{message};

/// Every input has a reading.
pub fn every_input_has_a_reading()
    ensures { (input : List ℕ) → (is : List Item) × (r : List ℕ) × Reads is r input }
{}

/// An input is read as one list of items, and one rest is left. So nothing but the input decides what a reader gives.
pub fn an_input_has_one_reading()
    ensures { (input : List ℕ) (is js : List Item) (r s : List ℕ) → Reads is r input
        → Reads js s input → (is ≡ js) × (r ≡ s) }
{}

/// What is left of one chunk, with the next one behind it, is read as both chunks are together: so it makes no difference how an input is cut into chunks.
pub fn chunks_make_no_difference()
    ensures { (is js : List Item) (r s first next : List ℕ) → Reads is r first
        → Reads js s (r ++ next) → Reads (is ++ js) s (first ++ next) }
{}

/// A message that was written is read as its content, and nothing is left. (There is no other reading: `an_input_has_one_reading`.)
pub fn a_message_is_read_back()
    ensures { (content : List ℕ) → length content ≤ longest_content
        → Reads (Item.Content content ∷ []) [] (message content) }
{}
