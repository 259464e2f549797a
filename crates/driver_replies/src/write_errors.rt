//! Refusals of statements, as drivers expect them.

ghost use Rattle.std.specs.Prelude.{◌≡◌, IfOk, option_map};
ghost use Rattle.bson.specs.View.{tree};
ghost use Rattle.driver_replies.specs.WriteErrors.{statement_code, refused_statement, error_document};

use crate::fields::{Fact, document_of};
use bson::{Document, NoMemory, Value};
use std::alloc::Global;

/// The number of a refusal that is a statement's.
fn statement_code(code: i32) -> Option<i32>
    ensures { result ≡ statement_code code }
{
    match code {
        22 | 26 | 43 | 59 | 73 => None,
        9002 | 9003 | 9004 | 9005 => None,
        _ => Some(code),
    }
}

/// The number of the refusal of a statement.
pub fn refused_statement(code: Option<&Value>) -> Option<i32>
    ensures { result ≡ refused_statement (option_map (λ v. tree v.now) code.entry) }
{
    match code {
        Some(Value::Int32(code)) => statement_code(*code),
        _ => None,
    }
}

/// The refusal of the statement of an index.
pub(crate) fn error_document(
    alloc: Global,
    index: i32,
    code: i32,
    text: &str,
) -> Result<Document, NoMemory>
    ensures { IfOk result (λ d. d ≡ error_document index code text.now) }
{
    document_of(
        alloc,
        &[
            ("index", Fact::Int32(index)),
            ("code", Fact::Int32(code)),
            ("errmsg", Fact::Text(text)),
        ],
    )
}
