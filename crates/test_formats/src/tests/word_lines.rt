//! Lines of words that ask for each command, and lines that are refused, for the tests of `command_words`.

/// Lines of words that ask for `gen`.
pub(crate) static GEN: [&str; 3] = [
    "x gen 7 --packets 3 --hosts 1 t",
    "x gen --hosts=256 --packets=1000000 0 t",
    "x gen 18446744073709551615 --packets 1 --hosts 1 -- -t",
];

/// Lines with `gen`, or with no command, that are refused.
pub(crate) static NO_GEN: [&str; 18] = [
    "x --help",
    "x gen 18446744073709551616 --packets 1 --hosts 1 t",
    "x gen 0 --packets 0 --hosts 1 t",
    "x gen 0 --packets 1 --hosts 257 t",
    "x gen 0 --packets 1000001 --hosts 1 t",
    "x gen 0 --packets 1 --hosts 0 t",
    "x gen 07 --packets 3 --hosts 1 t",
    "x gen 7 --packets 03 --hosts 1 t",
    "x gen -7 --packets 3 --hosts 1 t",
    "x gen 7 --packets 3 t",
    "x gen 7 --packets 3 --hosts 1",
    "x gen 7 --packets 3 --hosts 1 ",
    "x gen 7 --packets 3 --hosts 1 t s",
    "x gen 7 --packets 3 --packets 3 --hosts 1 t",
    "x gen 7 --packets 3 --hosts 1 --inside 10.0.0.0/24 t",
    "x --packets 3 gen 7 --hosts 1 t",
    "x",
    "x gen 7 --packets 3 --hosts 1 --summary t",
];

/// Lines of words that ask for `check`.
pub(crate) static CHECK: [&str; 8] = [
    "x check nat --instances a,b:5,c:0 s",
    "x check monitor s --instances a,b:1000000",
    "x check conntrack --instances a,b,c,d,e,f,g,h,i,j,k,l,m,n,o,p s",
    "x check nat --instances=a,b -- -s",
    "x check nat --instances a -",
    "x check nat --instances a:v1 s",
    "x check nat --instances a:5:v1,b,c:0,d:v1 s",
    "x check nat --instances v1:v1 s",
];

/// Lines with `check` that are refused.
pub(crate) static NO_CHECK: [&str; 45] = [
    "x check conntrack --instances a,b,c,d,e,f,g,h,i,j,k,l,m,n,o,p,q s",
    "x check nat --instances a,b:05 s",
    "x check nat --instances a,b:1000001 s",
    "x check nat --instances a,a:5 s",
    "x check nat --instances a, s",
    "x check nat --instances= s",
    "x check nat --instances a",
    "x check nat -- s --instances a",
    "x check nat --instances a --",
    "x check nat --instances a ",
    "x check nat --instances -a s",
    "x check nat --instances=-a s",
    "x check nat s --instances",
    "x check nat --instances a --instances=b s",
    "x check nat --instances a --window 256 s",
    "x check nat --instances a --summary=x s",
    "x check nat --inst a s",
    "x check nat -i a s",
    "x check nat --instances a --help",
    "x check --help",
    "x check nat --instances a -h s",
    "x check nat --instances a --version s",
    "x --instances a check nat s",
    "x check Nat --instances a s",
    "x check nat --instances A s",
    "x check nat --instances abcdefghijklmnopq s",
    "x check nat --instances a,:5 s",
    "x check nat --instances a: s",
    "x check nat --instances a:5:6 s",
    "x check nat --instances a:+5 s",
    "x check ids --instances a s",
    "x check nat --instances a:v2 s",
    "x check nat --instances a:V1 s",
    "x check nat --instances a:v1: s",
    "x check nat --instances a:v1:5 s",
    "x check nat --instances a:v1:v1 s",
    "x check nat --instances a:5:v1:v1 s",
    "x check nat --instances a:5:v2 s",
    "x check nat --instances a:5: s",
    "x check nat --instances a::v1 s",
    "x check nat --instances :v1 s",
    "x check nat --instances a:1000001:v1 s",
    "x check nat --instances a:05:v1 s",
    "x check nat --instances a,a:v1 s",
    "x check nat --instances a --journal j s",
];

/// Lines of words that ask for `sim`.
pub(crate) static SIM: [&str; 23] = [
    "x sim conntrack --instances a --inside 10.0.0.0/24 --schedule last t",
    "x sim --schedule=last conntrack --inside=10.0.0.0/24 t --instances=a",
    "x sim conntrack --instances a --inside 10.0.0.0/24 --schedule last -",
    "x sim conntrack --instances a --inside 10.0.0.0/24 --schedule last -- -t",
    "x sim conntrack --instances a --inside 10.0.0.0/24 --schedule last -- --",
    "x sim conntrack --instances a --inside 10.0.0.0/24 --schedule last t s",
    "x sim conntrack --instances a --inside 10.0.0.0/24 --schedule first t",
    "x sim conntrack --instances a --inside 10.0.0.0/24 t",
    "x sim conntrack --instances a:5 --inside 10.0.0.0/24 --schedule last t",
    "x sim conntrack --instances a,b --inside 10.0.0.0/24 --schedule last t",
    "x sim conntrack --instances a --inside 10.0.0.0/24 --schedule last --window 256 t",
    "x sim nat --instances a --inside 10.0.0.0/24 --outside 203.0.113.1 --schedule last t",
    "x sim conntrack --instances a --inside 10.0.0.0/24 --schedule last --summary t",
    "x sim monitor --instances a --inside 0.0.0.0/0 t",
    "x sim nat --instances a,b:0 --inside=10.0.0.0/24 --outside=10.0.1.0 --window=1 t s",
    "x sim conntrack --instances a,b,c,d,e,f,g,h,i,j,k,l,m,n,o,p --inside 10.0.0.0/8 t s",
    "x sim conntrack --instances a --inside 10.0.0.0/24 --schedule 0 t",
    "x sim conntrack --instances a --inside 10.0.0.0/24 --schedule 18446744073709551615 t",
    "x sim conntrack --instances a --inside 10.0.0.0/24 --window 1 t",
    "x sim conntrack --instances a --inside 10.0.0.0/24 --window 4096 t",
    "x sim conntrack --instances a --inside 10.0.0.0/24 t -- -s",
    "x sim conntrack --instances a --inside 10.0.0.0/24 --journal j --summary --schedule 7 t",
    "x sim conntrack --instances a,b:v1 --inside 10.0.0.0/24 t",
];

/// Lines with `sim` that are refused.
pub(crate) static NO_SIM: [&str; 31] = [
    "x sim conntrack --instances a --inside 10.0.0.0/24 --schedule last -t",
    "x sim conntrack --instances a --inside 10.0.0.0/24 --outside 203.0.113.1 --schedule last t",
    "x sim conntrack --instances a --inside 10.0.0.0 --schedule last t",
    "x sim conntrack --instances a --inside 10.0.0.1/24 --schedule last t",
    "x sim conntrack --instances a --inside 10.0.0.0/024 --schedule last t",
    "x sim conntrack --instances a --instances a --inside 10.0.0.0/24 --schedule last t",
    "x sim conntrack --instances a --inside 10.0.0.0/24 --sched last t",
    "x sim conntrack --instances a --inside 10.0.0.0/24 --schedule last --help t",
    "x sim conntrack --instances a,b,c,d,e,f,g,h,i,j,k,l,m,n,o,p,q --inside 10.0.0.0/8 t s",
    "x sim conntrack --instances a,b,a --inside 10.0.0.0/24 t s",
    "x sim conntrack --instances a --inside 10.0.0.0/24 --schedule 18446744073709551616 t",
    "x sim conntrack --instances a --inside 10.0.0.0/24 --schedule 07 t",
    "x sim conntrack --instances a --inside 10.0.0.0/24 --schedule= t",
    "x sim conntrack --instances a --inside 10.0.0.0/24 --window 0 t",
    "x sim conntrack --instances a --inside 10.0.0.0/24 --window 4097 t",
    "x sim conntrack --instances a --inside 10.0.0.0/24 --window 1 --window 1 t",
    "x sim conntrack --instances a --inside 10.0.0.0/24 t ",
    "x sim conntrack --instances a --inside 10.0.0.0/24 t s u",
    "x sim nat --instances a --inside 10.0.0.0/24 t",
    "x sim nat --instances a --inside 10.0.0.0/24 --outside 10.0.0.255 t",
    "x sim nat --instances a --inside 10.0.0.0/23 --outside 203.0.113.1 t",
    "x sim nat --instances a --inside 10.0.0.0/24 --outside 203.0.113 t",
    "x sim monitor --instances a --inside 10.0.0.0/24 --outside 203.0.113.1 t",
    "x sim conntrack --instances a t",
    "x sim conntrack t",
    "x --schedule last sim conntrack --instances a --inside 10.0.0.0/24 t",
    "x sim conntrack --instances a --inside 10.0.0.0/33 --schedule last t",
    "x sim conntrack --instances a --inside 10.0.0.0/24 --schedule -last t",
    "x sim conntrack --instances a --inside 10.0.0.0/24 --journal= t",
    "x sim conntrack --instances a --inside 10.0.0.0/24 --summary=x t",
    "x sim conntrack --instances a --inside 10.0.0.0/24 --schedule last --schedule last t",
];

/// Lines of words that ask for `run`.
pub(crate) static RUN: [&str; 8] = [
    "x run conntrack --instances a --inside 10.0.0.0/24 t",
    "x run conntrack --instances a --inside 10.0.0.0/24 t s",
    "x run monitor t s --summary --window=4096 --instances=a,b:5 --inside=0.0.0.0/0",
    "x run nat --instances a --inside 10.0.0.0/24 --outside 203.0.113.1 --journal j t",
    "x run conntrack --instances a --inside 10.0.0.0/24 --journal=-j t",
    "x run conntrack --instances a --inside 10.0.0.0/24 --journal - t",
    "x run conntrack --instances a --inside 10.0.0.0/24 -- --summary",
    "x run conntrack --instances a:0:v1 --inside 10.0.0.0/24 t",
];

/// Lines of words that ask for `audit`.
pub(crate) static AUDIT: [&str; 2] = [
    "x audit conntrack --instances a --inside 10.0.0.0/24 --journal j t",
    "x audit nat --instances a,b --inside 10.0.0.0/24 --outside 203.0.113.1 --window 9 --summary --journal=j t s",
];

/// Lines with `run` and with `audit` that are refused.
pub(crate) static NO_RUN_NOR_AUDIT: [&str; 29] = [
    "x run nat --instances a --inside 10.0.0.0/24 t",
    "x run conntrack --instances a --inside 10.0.0.0/24 --outside 203.0.113.1 t",
    "x run conntrack --instances a --inside 10.0.0.0/24 --schedule first t",
    "x run conntrack --instances a --inside 10.0.0.0/24 --window 0 t",
    "x run conntrack --instances a --inside 10.0.0.0/24 --window 4097 t",
    "x run conntrack --instances a --inside 10.0.0.0/24",
    "x run conntrack --instances a t",
    "x run conntrack --inside 10.0.0.0/24 t",
    "x run conntrack --instances a --inside 10.0.0.0/24 t s u",
    "x run conntrack --instances a --inside 10.0.0.0/24 --threads 4 t",
    "x run conntrack --instances a --inside 10.0.0.0/24 --journal j --journal j t",
    "x run conntrack --instances a --inside 10.0.0.0/24 --journal= t",
    "x run conntrack --instances a --inside 10.0.0.0/24 t --journal",
    "x run conntrack --instances a --inside 10.0.0.0/24 --journal -j t",
    "x run conntrack --instances a --inside 10.0.0.0/24 --summary --summary t",
    "x run conntrack --instances a --inside 10.0.0.0/24 --summary= t",
    "x run conntrack --instances a --inside 10.0.0.0/24 --summary=x t",
    "x run conntrack --instances a --inside 10.0.0.0/24 --summary=true t",
    "x run conntrack --instances a --inside 10.0.0.0/24 --summary true t s",
    "x run --help",
    "x --summary run conntrack --instances a --inside 10.0.0.0/24 t",
    "x audit conntrack --instances a --inside 10.0.0.0/24 t",
    "x audit conntrack --instances a --inside 10.0.0.0/24 --summary t s",
    "x audit conntrack --instances a --inside 10.0.0.0/24 --journal= t",
    "x audit conntrack --instances a --inside 10.0.0.0/24 --journal j --journal j t",
    "x audit conntrack --instances a --inside 10.0.0.0/24 --journal j --schedule first t",
    "x audit conntrack --instances a --inside 10.0.0.0/24 --journal j --summary=x t",
    "x audit conntrack --instances a --inside 10.0.0.0/24 --journal j",
    "x Run conntrack --instances a --inside 10.0.0.0/24 t",
];

/// Lines of words that ask for `fail`.
pub(crate) static FAIL: [&str; 2] = [
    "x fail nat --instances a,b --inside 10.0.0.0/24 --outside 203.0.113.1 --journal j --failed a --to b --after 0 t",
    "x fail monitor t s --after=18446744073709551615 --to=a --failed=b --journal=j --window=7 --inside=10.0.0.0/24 --instances=a,b:5:v1",
];

/// Lines with `fail` that are refused.
pub(crate) static NO_FAIL: [&str; 22] = [
    "x fail conntrack --instances a,b --inside 10.0.0.0/24 --journal j --failed a --to b --after 18446744073709551616 t",
    "x fail conntrack --instances a,b --inside 10.0.0.0/24 --journal j --failed a --to b --after 07 t",
    "x fail conntrack --instances a,b --inside 10.0.0.0/24 --journal j --failed a --to b --after -7 t",
    "x fail conntrack --instances a,b --inside 10.0.0.0/24 --journal j --failed a --to b --after t",
    "x fail conntrack --instances a,b --inside 10.0.0.0/24 --journal j --failed a --to b t",
    "x fail conntrack --instances a,b --inside 10.0.0.0/24 --journal j --failed a --after 7 t",
    "x fail conntrack --instances a,b --inside 10.0.0.0/24 --journal j --to b --after 7 t",
    "x fail conntrack --instances a,b --inside 10.0.0.0/24 --failed a --to b --after 7 t",
    "x fail conntrack --instances a,b --inside 10.0.0.0/24 --journal= --failed a --to b --after 7 t",
    "x fail conntrack --instances a,b --inside 10.0.0.0/24 --journal j --failed a --to a --after 7 t",
    "x fail conntrack --instances a,b --inside 10.0.0.0/24 --journal j --failed c --to b --after 7 t",
    "x fail conntrack --instances a,b --inside 10.0.0.0/24 --journal j --failed a --to c --after 7 t",
    "x fail conntrack --instances a,b --inside 10.0.0.0/24 --journal j --failed a --to= --after 7 t",
    "x fail conntrack --instances a --inside 10.0.0.0/24 --journal j --failed a --to a --after 7 t",
    "x fail conntrack --instances a,b --inside 10.0.0.0/24 --journal j --failed a --to b --after 7 --summary t",
    "x fail conntrack --instances a,b --inside 10.0.0.0/24 --journal j --failed a --to b --after 7 --schedule last t",
    "x fail conntrack --instances a,b --inside 10.0.0.0/24 --journal j --failed a --failed a --to b --after 7 t",
    "x fail conntrack --instances a,b --inside 10.0.0.0/24 --journal j --failed a --to b --after 7",
    "x fail conntrack --instances a,b --inside 10.0.0.0/24 --journal j --failed a --to b --after 7 t s r",
    "x fail nat --instances a,b --inside 10.0.0.0/24 --journal j --failed a --to b --after 7 t",
    "x audit conntrack --instances a,b --inside 10.0.0.0/24 --journal j --failed a --to b --after 7 t",
    "x --after 7 fail conntrack --instances a,b --inside 10.0.0.0/24 --journal j --failed a --to b t",
];

/// Lines of words that ask for `published`.
pub(crate) static PUBLISHED: [&str; 4] = [
    "x published conntrack --inside 10.0.0.0/24 t 1 any",
    "x published monitor t 0 local=10.0.0.1 --inside 10.0.0.0/24 --schedule 7 --window 4096",
    "x published nat --inside 10.0.0.0/24 --outside 192.0.2.1 t 4294967295 any",
    "x published conntrack --inside 10.0.0.0/24 t 1 proto=tcp,rport=80",
];

/// Lines with `published` that are refused.
pub(crate) static NO_PUBLISHED: [&str; 14] = [
    "x published conntrack --inside 10.0.0.0/24 t 4294967296 any",
    "x published conntrack --inside 10.0.0.0/24 t 01 any",
    "x published conntrack --inside 10.0.0.0/24 t 1",
    "x published conntrack --inside 10.0.0.0/24 t any",
    "x published conntrack --inside 10.0.0.0/24 t 1 any s",
    "x published conntrack --inside 10.0.0.0/24 t 1 all",
    "x published monitor --inside 10.0.0.0/24 t 1 rport=80",
    "x published conntrack t 1 any",
    "x published conntrack --inside 10.0.0.0/24 --instances a,b t 1 any",
    "x published conntrack --inside 10.0.0.0/24 --journal j t 1 any",
    "x published conntrack --inside 10.0.0.0/24 --summary t 1 any",
    "x published conntrack --inside 10.0.0.0/24 --window 0 t 1 any",
    "x published nat --inside 10.0.0.0/24 t 1 any",
    "x published conntrack --inside 10.0.0.0/24 --schedule next t 1 any",
];

/// Lines of words that ask for `strong`.
pub(crate) static STRONG: [&str; 5] = [
    "x strong conntrack --instances a,b --inside 10.0.0.0/24 t",
    "x strong monitor t local=10.0.0.1 --instances a,b,c --inside 10.0.0.0/24 --schedule 7 --window 4096",
    "x strong nat --instances a,b --inside 10.0.0.0/24 --outside 192.0.2.1 t any",
    "x strong conntrack --instances a,b --inside 10.0.0.0/24 t proto=tcp,rport=80",
    "x strong conntrack --instances a,b,c,d,e,f,g,h,i,j,k,l,m,n,o,p --inside 10.0.0.0/24 t",
];

/// Lines with `strong` that are refused.
pub(crate) static NO_STRONG: [&str; 17] = [
    "x strong conntrack --instances a,b,c,d,e,f,g,h,i,j,k,l,m,n,o,p,q --inside 10.0.0.0/24 t",
    "x strong conntrack --instances a --inside 10.0.0.0/24 t",
    "x strong conntrack --instances a,b:5 --inside 10.0.0.0/24 t",
    "x strong conntrack --instances a:v1,b --inside 10.0.0.0/24 t",
    "x strong conntrack --instances a,b,a --inside 10.0.0.0/24 t",
    "x strong conntrack --instances a,,b --inside 10.0.0.0/24 t",
    "x strong conntrack --instances a,B --inside 10.0.0.0/24 t",
    "x strong conntrack --inside 10.0.0.0/24 t",
    "x strong conntrack --instances a,b t",
    "x strong conntrack --instances a,b --inside 10.0.0.0/24",
    "x strong conntrack --instances a,b --inside 10.0.0.0/24 t any s",
    "x strong conntrack --instances a,b --inside 10.0.0.0/24 t all",
    "x strong monitor --instances a,b --inside 10.0.0.0/24 t rport=80",
    "x strong conntrack --instances a,b --inside 10.0.0.0/24 --journal j t",
    "x strong conntrack --instances a,b --inside 10.0.0.0/24 --summary t",
    "x strong conntrack --instances a,b --inside 10.0.0.0/24 --window 4097 t",
    "x strong conntrack --instances a,b --inside 10.0.0.0/24 --outside 192.0.2.1 t",
];
