//! How the letters of a text are written.
use crate::fault::PairsFault;
use std::alloc::{AllocError, Global};

/// How the characters of a text are written.
#[derive(Clone, Copy, PartialEq, Eq)]
pub enum Encoding {
    Utf8,
    Utf16Le,
    Utf16Be,
    Windows1252,
    Cp850,
    Macintosh,
}

pub static ENCODINGS: [Encoding; 6] = [
    Encoding::Utf8,
    Encoding::Utf16Le,
    Encoding::Utf16Be,
    Encoding::Windows1252,
    Encoding::Cp850,
    Encoding::Macintosh,
];

/// What the bytes from 128 on stand for. A byte without a letter is the control character of its
/// number, so that no two bytes become one.
const WINDOWS_1252: &str =
    "€\u{81}‚ƒ„…†‡ˆ‰Š‹Œ\u{8D}Ž\u{8F}\u{90}‘’“”•–—˜™š›œ\u{9D}žŸ\u{A0}¡¢£¤¥¦§¨©ª«¬\u{AD}®¯°±²³´µ¶·¸¹º»¼½¾¿ÀÁÂÃÄÅÆÇÈÉÊËÌÍÎÏÐÑÒÓÔÕÖ×ØÙÚÛÜÝÞßàáâãäåæçèéêëìíîïðñòóôõö÷øùúûüýþÿ";

const CP850: &str =
    "ÇüéâäàåçêëèïîìÄÅÉæÆôöòûùÿÖÜø£Ø×ƒáíóúñÑªº¿®¬½¼¡«»░▒▓│┤ÁÂÀ©╣║╗╝¢¥┐└┴┬├─┼ãÃ╚╔╩╦╠═╬¤ðÐÊËÈıÍÎÏ┘┌█▄¦Ì▀ÓßÔÒõÕµþÞÚÛÙýÝ¯´\u{AD}±‗¾¶§÷¸°¨·¹³²■\u{A0}";

const MACINTOSH: &str =
    "ÄÅÇÉÑÖÜáàâäãåçéèêëíìîïñóòôöõúùûü†°¢£§•¶ß®©™´¨≠ÆØ∞±≤≥¥µ∂∑∏π∫ªºΩæø¿¡¬√ƒ≈∆«»…\u{A0}ÀÃÕŒœ–—“”‘’÷◊ÿŸ⁄€‹›\u{FB01}\u{FB02}‡·‚„‰ÂÊÁËÈÍÎÏÌÓÔ\u{F8FF}ÒÚÛÙıˆ˜¯˘˙˚¸˝˛ˇ";

impl Encoding {
    /// Its name, as an option and `iconv` write it.
    pub fn name(self) -> &'static str {
        match self {
            Encoding::Utf8 => "utf-8",
            Encoding::Utf16Le => "utf-16le",
            Encoding::Utf16Be => "utf-16be",
            Encoding::Windows1252 => "windows-1252",
            Encoding::Cp850 => "cp850",
            Encoding::Macintosh => "macintosh",
        }
    }

    pub fn of_name(name: &str) -> Option<Self> {
        for encoding in &ENCODINGS {
            if encoding.name().eq_ignore_ascii_case(name) {
                return Some(*encoding);
            }
        }
        None
    }

    /// The text of the bytes, without a byte order mark at its beginning.
    pub fn decode(self, alloc: Global, bytes: &[u8]) -> Result<String, PairsFault> {
        match self {
            Encoding::Utf8 => Ok(String::from_str(alloc, utf8_text(bytes)?)?),
            Encoding::Utf16Le => decode_utf16(alloc, bytes, false),
            Encoding::Utf16Be => decode_utf16(alloc, bytes, true),
            Encoding::Windows1252 => Ok(decode_bytes(alloc, bytes, WINDOWS_1252)?),
            Encoding::Cp850 => Ok(decode_bytes(alloc, bytes, CP850)?),
            Encoding::Macintosh => Ok(decode_bytes(alloc, bytes, MACINTOSH)?),
        }
    }
}

/// The text that bytes of UTF-8 are, without a byte order mark.
pub fn utf8_text(bytes: &[u8]) -> Result<&str, PairsFault> {
    match str::from_utf8(bytes) {
        Ok(text) => Ok(text.strip_prefix('\u{FEFF}').unwrap_or(text)),
        Err(error) => Err(PairsFault::NotText {
            line: line_at(bytes, error.valid_up_to()),
        }),
    }
}

/// The number of the line on which a byte stands.
fn line_at(bytes: &[u8], place: usize) -> u64 {
    let mut line: u64 = 1;
    for byte in bytes.iter().take(place) {
        if *byte == b'\n' {
            line = line.saturating_add(1);
        }
    }
    line
}

fn decode_utf16(alloc: Global, bytes: &[u8], is_big: bool) -> Result<String, PairsFault> {
    let (pairs, rest) = bytes.as_chunks::<2>();
    let units = pairs.iter().map(|pair| {
        let unit = u16::from_le_bytes(*pair);
        if is_big { unit.swap_bytes() } else { unit }
    });
    let mut text = String::new(alloc);
    let mut line: u64 = 1;
    for letter in char::decode_utf16(units) {
        match letter {
            Ok('\u{FEFF}') if text.is_empty() => (),
            Ok(letter) => {
                text.push(letter)?;
                if letter == '\n' {
                    line = line.saturating_add(1);
                }
            }
            Err(_) => return Err(PairsFault::NotText { line }),
        }
    }
    match rest {
        [] => Ok(text),
        _ => Err(PairsFault::NotText { line }),
    }
}

/// The text of bytes of which each is a letter: that of ASCII, or one of these.
fn decode_bytes(alloc: Global, bytes: &[u8], upper: &str) -> Result<String, AllocError> {
    let letters: Vec<char> = upper.chars().collect(alloc)?;
    let mut text = String::with_capacity(alloc, bytes.len())?;
    for byte in bytes {
        match letters.get(usize::from(*byte).wrapping_sub(128)) {
            Some(letter) => text.push(*letter)?,
            None => text.push(char::from(*byte))?,
        }
    }
    Ok(text)
}
