//! The built form of a pattern.
ghost use Rattle.std.specs.Prelude.{◌≡◌, Some, None, IfOk};
ghost use Rattle.regex.specs.Strings.{regex_source};
ghost use Rattle.wm_criteria.specs.Building.{IsRead};
ghost use Rattle.wm_criteria.specs.Searching.{form_search};

use regex::Regex;
use std::alloc::Global;
use std::marker::Model;
use wm_base::NoMemory;

/// What a key's pattern was built to. There is none where the key has no pattern, or a plain one.
#[derive(Debug, Drop)]
pub struct Form {
    regex: Option<Regex>,
}

impl Model for Form {
    ghost use Rattle.std.specs.Prelude.{List, ℕ, Option, option_map};
    ghost use Rattle.std.specs.Option.{ForSome};
    ghost use Rattle.regex.specs.Strings.{regex_source};
    ghost use Rattle.wm_criteria.specs.Building.{IsRead};

    ghost Value = { Option (List ℕ) };

    ghost view = { λ form. option_map regex_source form.regex };

    ghost invariant = { λ form. ∥ ForSome form.regex IsRead ∥₁ };
}

impl Form {
    /// The form of a key that needs none.
    pub fn none() -> Form
        ensures { result ≡ None }
    {
        Form { regex: None }
    }

    /// The form of a pattern.
    pub fn of(regex: Regex) -> Form
        requires { IsRead regex }
        ensures { result ≡ Some (regex_source regex) }
    {
        Form { regex: Some(regex) }
    }

    /// Whether the pattern that was built matches the text. Nothing matches where none was built.
    pub fn search(&self, alloc: Global, text: &str) -> Result<bool, NoMemory>
        ensures { IfOk result (λ found. found ≡ form_search self.now text.now) }
    {
        match &self.regex {
            None => Ok(false),
            Some(regex) => {
                let mut matcher = regex.matcher(alloc)?;
                Ok(matcher.is_match(text))
            }
        }
    }
}
