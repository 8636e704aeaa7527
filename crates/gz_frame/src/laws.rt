//! What holds of the messages of each text.
ghost use Rattle.std.specs.Prelude.{◌≡◌, ◌+◌, ◌++◌, ℕ, List, [], length, take, drop, true, Some, None, ◌≤◌, ◌<◌, ◌^◌, All, Ok};
ghost use Rattle.gz_model.specs.Lines.{line_len};
ghost use Rattle.gz_model.specs.Prefix.{IsPrefix};
ghost use Rattle.gz_uuid.specs.Identifier.{AreParts};
ghost use Rattle.gz_frame.specs.Messages.{Message, is_message};
ghost use Rattle.gz_frame.specs.Line.{line_of};
ghost use Rattle.gz_frame.specs.Frame.{unframed, frame_of, max_content};
ghost use Rattle.gz_frame.specs.Text.{messages_of, message_of, placed_at, is_whole};

/// The messages of two texts, joined, are those of the first, which is whole lines, and then those of the
/// second, which begins where the first ends.
#[tactic(auto, using(crate::proofs::Whole::messages_joined))]
pub fn messages_of_joined_texts()
    ensures { (at : ℕ) (prefix back : List ℕ) → is_whole prefix ≡ true →
        messages_of at (prefix ++ back) ≡ messages_of at prefix ++ messages_of (at + length prefix) back }
{}

/// The messages of a prefix of a text are a prefix of its messages, wherever the text is cut.
#[tactic(auto, using(crate::proofs::Whole::messages_prefix))]
pub fn messages_of_a_prefix()
    ensures { (at : ℕ) (prefix back : List ℕ) →
        IsPrefix (messages_of at prefix) (messages_of at (prefix ++ back)) }
{}

/// A text's messages are that of its first line, where this is one, and those behind the line; without a
/// newline it has none.
#[tactic(auto, using(crate::proofs::Whole::messages_of_first, crate::proofs::Whole::no_messages))]
pub fn messages_line_by_line()
    ensures first { (at : ℕ) (text : List ℕ) (n : ℕ) → line_len text ≡ Some n →
        messages_of at text ≡ placed_at at n (message_of (take n text)) ++ messages_of (at + n) (drop n text) }
    ensures last { (at : ℕ) (text : List ℕ) → line_len text ≡ None → messages_of at text ≡ [] }
{}

/// A frame is found wherever bytes begin with it, and no frame is a proper prefix of another one.
#[tactic(auto, using(crate::proofs::FrameLaws::frame_found, crate::proofs::FrameLaws::frames_apart))]
pub fn frames_stand_apart()
    ensures found { (content rest : List ℕ) → length content ≤ max_content →
        unframed (frame_of content ++ rest) ≡ Ok (record { begin = 8; end = 8 + length content; used = 8 + length content }) }
    ensures apart { (content other more : List ℕ) → length content ≤ max_content →
        length other ≤ max_content →
        frame_of content ++ more ≡ frame_of other → more ≡ [] }
{}

/// The line of each message is read back as that message, where its producer, its clock and its flags are
/// those of an identifier.
#[tactic(auto, using(crate::proofs::Lines::lawful_line_reads_back))]
pub fn lines_read_back()
    ensures { (m : Message) → is_message m ≡ true → AreParts m.producer m.clock m.flags →
        All (λ octet. octet < 2 ^ 8) m.producer →
        message_of (line_of m) ≡ Some m }
{}
