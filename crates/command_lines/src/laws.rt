ghost use Rattle.std.specs.Prelude.{[], ◌∷◌, codes};
ghost use Rattle.clap.specs.Words.{Text};
ghost use Rattle.clap.specs.declared.error.kind.ErrorKind.TheVariants as kinds;
ghost use Rattle.command_lines.specs.CommandLine.{AsksVerify, EachIsAtFault, IsAtFault, build_line};
ghost use Rattle.command_lines.specs.CommandLine.{digest_line, get_line, put_line, serve_line};
ghost use Rattle.command_lines.specs.CommandLine.{verify_line, verify_words};
ghost use Rattle.command_lines.specs.Given.{CanBeTexts, MissesNeeded, IsUnderstood, verify_in_two};

/// What words ask for: each command with whatever it can take, in any order, as people type it;
/// help; and the version. A law: it does nothing.
pub fn words_are_understood()
    // Whatever texts the options have in one word with them, these are their texts.
    ensures options { (store sources plan noted claim : Text)
        → AsksVerify (verify_words store sources plan noted claim) store sources plan noted claim }
    // Help and the version, in place of a command's work.
    ensures help { IsAtFault (codes "--help" ∷ []) kinds.DisplayHelp }
    ensures short_help { IsAtFault (codes "-h" ∷ []) kinds.DisplayHelp }
    ensures command_help { EachIsAtFault (codes "--help" ∷ []) kinds.DisplayHelp }
    ensures short_command_help { EachIsAtFault (codes "-h" ∷ []) kinds.DisplayHelp }
    ensures version { IsAtFault (codes "--version" ∷ []) kinds.DisplayVersion }
    ensures short_version { IsAtFault (codes "-V" ∷ []) kinds.DisplayVersion }
    // No words, and a command with an unknown option.
    ensures nothing { IsAtFault [] kinds.MissingSubcommand }
    ensures option_unknown { EachIsAtFault (codes "--color" ∷ []) kinds.UnknownArgument }
    // Whatever a command can take, in any order, each text in one word with its option or in the
    // next: the words ask for just that.
    ensures verify { IsUnderstood verify_line }
    ensures serve { IsUnderstood serve_line }
    ensures put { IsUnderstood put_line }
    ensures get { IsUnderstood get_line }
    ensures digest { IsUnderstood digest_line }
    ensures build { IsUnderstood build_line }
    // Where one that a command needs isn't given, the words are at fault with just that. `verify`
    // tells by itself what it wants.
    ensures serve_misses { MissesNeeded serve_line }
    ensures put_misses { MissesNeeded put_line }
    ensures get_misses { MissesNeeded get_line }
    ensures digest_misses { MissesNeeded digest_line }
    ensures build_misses { MissesNeeded build_line }
    // So `verify` with each text in a word of its own, for one.
    ensures two_words { (store sources plan noted claim : Text)
        → CanBeTexts (store ∷ sources ∷ plan ∷ noted ∷ claim ∷ [])
        → AsksVerify (verify_in_two store sources plan noted claim) store sources plan noted claim }
{}
