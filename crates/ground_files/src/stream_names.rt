//! The names that the words give to inputs and outputs.

ghost use Rattle.std.specs.Prelude.{◌≡◌};
ghost use Rattle.ground_files.specs.Workspaces.{is_dash};
ghost use Rattle.ground_files.specs.Inputs.{input_shown};

/// Whether a name stands for a standard stream.
pub fn is_stream(name: &str) -> bool
    ensures { result ≡ is_dash name.now }
{
    name == "-"
}

/// An input's name for people.
pub fn input_name(file: &str) -> &str
    ensures { result.now ≡ input_shown file.now }
{
    if is_stream(file) {
        "standard input"
    } else {
        file
    }
}

/// An output's name for people.
pub fn output_name(file: &str) -> &str {
    if is_stream(file) {
        "standard output"
    } else {
        file
    }
}
