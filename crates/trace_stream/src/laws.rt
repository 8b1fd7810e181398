//! Laws of the grammar and its refusals, which have no code.
ghost use Rattle.std.specs.Prelude.{◌≡◌, ◌+◌, ◌++◌, List, None, flat_map, length};
ghost use Rattle.pager_model.specs.declared.call.Line.{Line};
ghost use Rattle.pager_model.specs.Scripts.{Script};
ghost use Rattle.pager_model.specs.TraceText.{call_line};
ghost use Rattle.trace_reader.specs.Refusals.{first_call};
ghost use Rattle.trace_stream.specs.Streams.{HasStream, end_line, forms_of, next_refusal, opening_refusal, opening_text};

/// The text of a stream isn't refused: not its lines before the calls, and not the line behind any of its calls.
pub fn a_streams_text_is_not_refused()
    ensures opening { (script : Script) → HasStream script
        → opening_refusal (opening_text script ++ flat_map call_line script.calls ++ end_line) ≡ None }
    ensures next { (script : Script) (before after : List Line) → HasStream script → script.calls ≡ before ++ after
        → next_refusal (forms_of script) (first_call script.daemon + length before) (length before) (flat_map call_line after ++ end_line) ≡ None }
{}
