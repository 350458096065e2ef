//! The path that a value says.
ghost use Rattle.std.specs.Prelude.{◌≡◌, drop, length, position};
ghost use Rattle.std.specs.List.{before_first};
ghost use Rattle.git_config.specs.Paths.{is_slash, path_of, path_with};

/// A path, by the folder that it is told from. `B` holds bytes.
#[derive(Debug, Clone, PartialEq, Eq, Drop)]
pub enum ConfigPath<B> {
    /// The path counts as it stands.
    Plain(B),
    /// The path is this one below the folder that Git is installed in, or this one itself where it is absolute.
    Installed(B),
    /// These bytes follow the home folder: none, or some that begin with a slash.
    Home(B),
    /// Some bytes follow the home folder of a user.
    User {
        /// The name of the user.
        name: B,
        /// What follows the folder: nothing, or bytes that begin with a slash.
        rest: B,
    },
}

/// The path of a value: `%(prefix)/` in front stands for the folder that Git is installed in, `~` for the home folder, and `~` with
/// the name of a user for that user's.
pub fn config_path(value: &[u8]) -> ConfigPath<&[u8]>
    ensures { path_with (λ bytes. bytes.now) result ≡ path_of value.now }
{
    if let Some(rest) = value.strip_prefix(b"%(prefix)/") {
        return ConfigPath::Installed(rest);
    }
    let Some(told) = value.strip_prefix(b"~") else {
        return ConfigPath::Plain(value);
    };
    let (name, rest) = split_at_slash(told);
    if name.is_empty() {
        ConfigPath::Home(told)
    } else {
        ConfigPath::User { name, rest }
    }
}

/// What stands before the first slash of a text, and what follows from that slash on.
fn split_at_slash(text: &[u8]) -> (&[u8], &[u8])
    ensures front { result.0.now ≡ before_first is_slash text.now }
    ensures back { result.1.now ≡ drop (length (before_first is_slash text.now)) text.now }
{
    match first_slash(text) {
        Some(place) => text.split_at(place),
        None => (text, &[]),
    }
}

/// The place of the first slash.
fn first_slash(text: &[u8]) -> Option<usize>
    ensures { result ≡ position is_slash text.now }
{
    text.iter().position(|b| *b == b'/')
}
