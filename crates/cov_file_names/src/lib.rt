//! The form of value that the settings of a project and the words of a command have in common:
//! FILE:NAME, a function of a file. `file_and_name` takes such a text apart.
#![tactic(auto)]

ghost use Rattle.std.specs.Prelude.{◌≡◌, option_map};
ghost use Rattle.cov_file_names.specs.Forms.{file_and_name};

/// What is before the last `:` and what is after it, where neither is empty.
pub fn file_and_name(text: &str) -> Option<(&str, &str)>
    ensures { option_map (λ p. (p.0.now, p.1.now)) result ≡ file_and_name text.now }
{
    let (file, name) = text.rsplit_once(':')?;
    if file.is_empty() {
        return None;
    }
    if name.is_empty() {
        return None;
    }
    Some((file, name))
}
