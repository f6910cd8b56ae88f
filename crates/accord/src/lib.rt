// The register's tables and a history of requests: what it means that they agree, and what keeps it so. Nothing runs here.
#![tactic(auto)]

ghost use Rattle.accord.specs.Accord.{EmptyAgrees, SettledAgrees, AgreeProper};

// Tables and history begin in accord, and each request that is settled by the tables keeps it.
pub fn accord_is_kept()
    ensures begun { EmptyAgrees }
    ensures kept { SettledAgrees }
    ensures proper { AgreeProper }
{}
