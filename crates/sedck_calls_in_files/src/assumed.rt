//! What is assumed of files, in words.

use sedck_explanation::shown_name;
use sedck_found::Assumptions;
use std::alloc::{AllocError, Global};

/// The variables as `--assume` has them: a name with its value, or alone where it isn't set.
pub(crate) fn assumed_texts(
    alloc: Global,
    assumed: &Assumptions,
) -> Result<Vec<String>, AllocError> {
    let mut texts = Vec::new(alloc);
    for one in assumed.variables {
        let mut text = shown_name(alloc, one.name)?;
        if let Some(value) = one.value {
            text.push_str("=")?;
            text.push_str(shown_name(alloc, value)?.as_str())?;
        }
        texts.push(text)?;
    }
    Ok(texts)
}
