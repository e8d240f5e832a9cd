ghost use Rattle.std.specs.Prelude.{◌≡◌, ◌≢◌, ◌↔◌, [], map, codes, string_bytes, IsTrue, MatchOption, option_map};
ghost use Rattle.wcet.specs.Words.{IsBoundCall, IsFaultyCall, IsFaultyServe, IsServeCall, optional_word, paths_in};

/// The paths of a call's files. No path for the hardware means the default one, and none for the facts no facts.
#[derive(Clone, Copy)]
pub struct InputPaths<'a> {
    pub binary: &'a str,
    pub hardware: Option<&'a str>,
    pub facts: Option<&'a str>,
}

/// The words of `bound BINARY FACTS HARDWARE FUNCTION`.
#[derive(Clone, Copy)]
pub struct BoundCall<'a> {
    pub paths: InputPaths<'a>,
    pub name: &'a str,
}

/// Whether a word is this text.
pub fn is_word(word: &String, text: &str) -> bool
    ensures { IsTrue result ↔ (string_bytes word.now ≡ text.now) }
{
    word.as_str() == text
}

fn is_named(name: &String) -> bool
    ensures { IsTrue result ↔ (string_bytes name.now ≢ []) }
{
    !name.is_empty()
}

/// The path that a word stands for; nothing for `-`.
fn optional_path(word: &String) -> Option<&str>
    ensures word { optional_word (option_map (λ p. p.now) result) ≡ string_bytes word.now }
    ensures path { MatchOption result (string_bytes word.now ≡ codes "-") (λ p. p.now ≢ codes "-") }
{
    if is_word(word, "-") {
        None
    } else {
        Some(word.as_str())
    }
}

/// Nothing where the words have another form, or the function no name.
pub fn bound_call(words: &[String]) -> Option<BoundCall<'_>>
    ensures { MatchOption result (IsFaultyCall (map string_bytes words.now)) (λ c. IsBoundCall (map string_bytes words.now) (paths_in c.paths) c.name.now) }
{
    match words {
        [command, binary, facts, hardware, name] if is_word(command, "bound") && is_named(name) => {
            Some(BoundCall {
                paths: InputPaths {
                    binary: binary.as_str(),
                    hardware: optional_path(hardware),
                    facts: optional_path(facts),
                },
                name: name.as_str(),
            })
        }
        _ => None,
    }
}

/// The words of `serve BINARY FACTS HARDWARE IN OUT`.
#[derive(Clone, Copy)]
pub struct ServeCall<'a> {
    pub paths: InputPaths<'a>,
    pub input: &'a str,
    pub output: &'a str,
}

fn is_same(a: &String, b: &String) -> bool
    ensures { IsTrue result ↔ (string_bytes a.now ≡ string_bytes b.now) }
{
    a.as_str() == b.as_str()
}

/// Whether the output isn't the path that a word stands for.
fn is_beside(word: &String, output: &String) -> bool
    ensures { IsTrue result ↔ (string_bytes word.now ≢ codes "-" → string_bytes output.now ≢ string_bytes word.now) }
{
    is_word(word, "-") || !is_same(output, word)
}

/// Whether the output is no other path of the line.
fn is_apart(
    binary: &String,
    facts: &String,
    hardware: &String,
    input: &String,
    output: &String,
) -> bool
    ensures { IsTrue result ↔ (((string_bytes output.now ≢ string_bytes binary.now) × (string_bytes output.now ≢ string_bytes input.now)) × ((string_bytes facts.now ≢ codes "-" → string_bytes output.now ≢ string_bytes facts.now) × (string_bytes hardware.now ≢ codes "-" → string_bytes output.now ≢ string_bytes hardware.now))) }
{
    !is_same(output, binary)
        && !is_same(output, input)
        && is_beside(facts, output)
        && is_beside(hardware, output)
}

/// Nothing where the words have another form, or OUT is another path of the line.
pub fn serve_call(words: &[String]) -> Option<ServeCall<'_>>
    ensures { MatchOption result (IsFaultyServe (map string_bytes words.now)) (λ c. IsServeCall (map string_bytes words.now) (paths_in c.paths) c.input.now c.output.now) }
{
    match words {
        [command, binary, facts, hardware, input, output]
            if is_word(command, "serve") && is_apart(binary, facts, hardware, input, output) => {
            Some(ServeCall {
                paths: InputPaths {
                    binary: binary.as_str(),
                    hardware: optional_path(hardware),
                    facts: optional_path(facts),
                },
                input: input.as_str(),
                output: output.as_str(),
            })
        }
        _ => None,
    }
}
