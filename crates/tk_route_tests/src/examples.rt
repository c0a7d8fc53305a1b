//! Tests of the definition of parameter texts, by the tables in `specs/ParamExamples.antt`. Each clause states that a
//! definition returns the value that a table has next to its argument. The prover computes it; the functions do
//! nothing.
ghost use Rattle.tk_engines.specs.Keys.{key_of};
ghost use Rattle.tk_route_tests.specs.ParamExamples.{HasTable, begun_by, said_by, said_within};
ghost use Rattle.tk_route_tests.specs.ParamExamples as Tables;

fn texts()
    ensures keys { HasTable key_of Tables.key_words }
    ensures accepted { HasTable said_by Tables.accepted }
    ensures values { HasTable said_by Tables.value_faults }
    ensures orders { HasTable said_by Tables.fault_orders }
    ensures prefixes { HasTable said_by Tables.prefixes }
{}

fn ends()
    ensures lengths { HasTable said_by Tables.lengths }
    ensures begun { HasTable begun_by Tables.beginnings }
    ensures within { HasTable said_within Tables.within_limits }
{}

#[test]
fn examples() {
    texts();
    ends();
}
