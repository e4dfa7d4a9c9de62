//! The script that is open at a line.
ghost use Rattle.std.specs.Prelude.{◌≡◌, ◌≢◌, ◌↔◌, ◌+◌, ◌-◌, ◌^◌, min, IfSome, IsNone};

use crate::lines::keywords::script_word;
use crate::lines::line::words_of;
use lot_simulation::ScriptWord;

/// An open script.
#[derive(Clone, Copy)]
pub struct OpenScript {
    /// The line that opens it.
    pub line: u32,
    /// The number of its open loops.
    pub loops: u32,
}

impl OpenScript {
    /// The script that the line with this number opens.
    pub fn opened(number: u32) -> OpenScript
        ensures line { result.line ≡ number }
        ensures loops { result.loops ≡ 0 }
    {
        OpenScript {
            line: number,
            loops: 0,
        }
    }

    /// The script after this word of it, if it is still open.
    pub fn after(self, word: ScriptWord) -> Option<OpenScript>
        ensures ended { IsNone result ↔ word ≡ ScriptWord.EndScript }
        ensures line { IfSome result (λ after. after.line ≡ self.line) }
        ensures deeper { word ≡ ScriptWord.Loop
            → IfSome result (λ after. after.loops ≡ min (self.loops + 1) (2 ^ 32 - 1)) }
        ensures back { word ≡ ScriptWord.End → IfSome result (λ after. after.loops ≡ self.loops - 1) }
        ensures other { word ≢ ScriptWord.Loop → word ≢ ScriptWord.End → IfSome result (λ after. after ≡ self) }
    {
        let OpenScript { line, loops } = self;
        match word {
            ScriptWord::EndScript => None,
            ScriptWord::Loop => Some(OpenScript {
                line,
                loops: loops.saturating_add(1),
            }),
            ScriptWord::End => Some(OpenScript {
                line,
                loops: loops.saturating_sub(1),
            }),
            _ => Some(self),
        }
    }
}

/// The script after an accepted line inside it, if it is still open.
pub fn after_line(script: OpenScript, line: &[u8]) -> Option<OpenScript> {
    let mut open = script;
    let mut is_argument = false;
    for word in words_of(line) {
        if word.starts_with('#') {
            return Some(open);
        }
        if is_argument {
            is_argument = false;
        } else if let Some(word) = script_word(word) {
            open = open.after(word)?;
            is_argument = !word.stands_alone();
        }
    }
    Some(open)
}
