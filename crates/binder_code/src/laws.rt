ghost use Rattle.std.specs.Prelude.{◌≡◌, ℕ, Ok};
ghost use Rattle.binder_code.specs.CommandLaws.{MakesStatedWords, MeansItsKind};
ghost use Rattle.binder_code.specs.Commands.{kind_of, kind_of_word};
ghost use Rattle.binder_code.specs.declared.protocol.Protocol.{Protocol};
ghost use Rattle.binder_code.specs.declared.record_kind.Kind.{Kind};

/// Each listed kind's code word is the one that the header's macros compute, and it means that
/// kind. What a good code word means in a frame, the code word says alone.
pub fn code_words()
    ensures stated { MakesStatedWords }
    ensures meant { (kind : Kind) → MeansItsKind kind }
    ensures alone { (protocol : Protocol) (code : ℕ) (kind : Kind) →
        kind_of protocol code ≡ Ok kind → kind_of_word code ≡ kind }
{}
