ghost use Rattle.spirv_code.specs.Worked.{EmptyShader, EmptyShaderBound, RingIsLoop, ThreadNumberAtVersion13, ThreadNumberIsStored};

/// What small programs are lowered to, by the definitions: the empty shader, a store of a thread's number, and a loop with an arm.
///
/// The function does nothing: it is a theorem, which its contract states.
pub fn worked_rows()
    ensures empty_shader { EmptyShader }
    ensures empty_shader_bound { EmptyShaderBound }
    ensures thread_number_is_stored { ThreadNumberIsStored }
    ensures thread_number_at_version13 { ThreadNumberAtVersion13 }
    ensures ring_is_loop { RingIsLoop }
{}
