//! The packet of a keyword and its fields.
ghost use Rattle.std.specs.Prelude.{◌≡◌, ◌≤◌, ℕ, List, Option, length, IfOk};
ghost use Rattle.adf_script.specs.Grammar.{form_of, SpellsFields};
ghost use Rattle.adf_script.specs.steps.Reading.{fields_by, values_of};
ghost use Rattle.adf_script.specs.steps.Words.{shape_of};

use crate::fields::Fields;
use crate::forms::Word;
use ados_model::{Buffer, Packet, Text};
use ados_name::{Date3, PathText};
use std::alloc::{AllocError, Global};

/// These bytes as a packet's text. They were read as a path, a name or a comment.
fn text_of(alloc: Global, text: &[u8]) -> Result<Text, AllocError>
    requires { length text.now ≤ 255 }
    ensures { IfOk result (λ made. made ≡ text.now) }
{
    match PathText::new(text) {
        Ok(path) => Text::new(alloc, path),
        Err(_) => unreachable!(),
    }
}

/// The packet of a line with this keyword and these fields. Its texts and its buffer take memory.
#[rattlefmt::skip]
pub(crate) fn packet_of(alloc: Global, word: Word, fields: &Fields<'_>) -> Result<Packet, AllocError>
    requires { (values : List (Option ℕ)) × (rest : List ℕ) × SpellsFields values (fields_by (shape_of word).1 (values_of fields.now)) rest }
    ensures { IfOk result (λ packet. form_of packet ≡ ((shape_of word).0, fields_by (shape_of word).1 (values_of fields.now))) }
{
    let Fields { first, second, third, fourth, fifth } = *fields;
    match word {
        Word::Die => Ok(Packet::Die),
        Word::DiskInfo => Ok(Packet::DiskInfo),
        Word::Locate => Ok(Packet::LocateObject { lock: first.number, path: text_of(alloc, third.text)?, mode: second.signed }),
        Word::Free => Ok(Packet::FreeLock { lock: first.number }),
        Word::Copy => Ok(Packet::CopyDir { lock: first.number }),
        Word::Parent => Ok(Packet::Parent { lock: first.number }),
        Word::Examine => Ok(Packet::ExamineObject { lock: first.number }),
        Word::Info => Ok(Packet::Info { lock: first.number }),
        Word::Next => Ok(Packet::ExamineNext { lock: first.number, key: second.number }),
        Word::Same => Ok(Packet::SameLock { first: first.number, second: second.number }),
        Word::Delete => Ok(Packet::DeleteObject { lock: first.number, path: text_of(alloc, second.text)? }),
        Word::MakeDir => Ok(Packet::CreateDir { lock: first.number, path: text_of(alloc, second.text)? }),
        Word::Rename => {
            let from = text_of(alloc, second.text)?;
            let to = text_of(alloc, fourth.text)?;
            Ok(Packet::RenameObject { from_lock: first.number, from, to_lock: third.number, to })
        }
        Word::RenameDisk => Ok(Packet::RenameDisk { name: text_of(alloc, first.text)? }),
        Word::Protect => Ok(Packet::SetProtect { lock: first.number, path: text_of(alloc, second.text)?, bits: third.number }),
        Word::Comment => {
            let path = text_of(alloc, second.text)?;
            let comment = text_of(alloc, third.text)?;
            Ok(Packet::SetComment { lock: first.number, path, comment })
        }
        Word::Date => {
            let date = Date3 { days: third.number, minutes: fourth.number, ticks: fifth.number };
            Ok(Packet::SetDate { lock: first.number, path: text_of(alloc, second.text)?, date })
        }
        Word::Update => Ok(Packet::FindUpdate { lock: first.number, path: text_of(alloc, second.text)? }),
        Word::Input => Ok(Packet::FindInput { lock: first.number, path: text_of(alloc, second.text)? }),
        Word::Output => Ok(Packet::FindOutput { lock: first.number, path: text_of(alloc, second.text)? }),
        Word::Read => Ok(Packet::Read { handle: first.number, buffer: Buffer::from_vec(vec![in alloc; 0; second.number as usize]?) }),
        Word::Write => Ok(Packet::Write { handle: first.number, bytes: Buffer::from_vec(Vec::from_slice(alloc, second.text)?) }),
        Word::End => Ok(Packet::End { handle: first.number }),
        Word::Seek => Ok(Packet::Seek { handle: first.number, offset: second.signed, mode: third.signed }),
        Word::Size => Ok(Packet::SetFileSize { handle: first.number, offset: second.signed, mode: third.signed }),
        Word::Other => Ok(Packet::Other { action: first.signed }),
    }
}
