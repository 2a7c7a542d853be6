// Words as they are read.
use run_words::{Request, WordsError, WordsFault, read};
use std::alloc::{AllocError, Global};

fn owned(alloc: Global, words: &[&str]) -> Result<Vec<String>, AllocError> {
    let mut all = Vec::new(alloc);
    for word in words {
        all.push(String::from_str(alloc, word)?)?;
    }
    Ok(all)
}

/// The request of words, or why there is none. Nothing of what the call promises is passed on.
pub fn request(alloc: Global, words: &[&str]) -> Result<Request, WordsError> {
    let words = owned(alloc, words)?;
    read(alloc, words.as_slice())
}

/// Whether there is no request, for this cause.
pub fn refuses(alloc: Global, words: &[&str], cause: WordsError) -> bool {
    match request(alloc, words) {
        Ok(_) => false,
        Err(error) => error == cause,
    }
}

/// Whether there is no request, for this fault.
pub fn has_fault(alloc: Global, words: &[&str], fault: WordsFault) -> bool {
    refuses(alloc, words, WordsError::Bad(fault))
}

/// Whether there is a request.
pub fn is_asked(alloc: Global, words: &[&str]) -> bool {
    request(alloc, words).is_ok()
}
