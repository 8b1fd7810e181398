//! Runs beside a daemon that `draw_run.py --daemon` drew from the seeds in their names, the last by `--wires` too, and what is printed of them,
//! as an independent checker made it.

pub const BESIDE: &str = "\
run: drawn beside a daemon from 4
turns: 1025 0021100112210212120001
stores: reads writes 1 3; reads writes 1 3
trace: trace 1 512 2 2; daemon 2 4; 0 map 0 0 512 fixed write; 0 store 0 0 5; 511 times 8192: 0 load 0 #; 0 map 0 512 \
1 fixed read; 0 map 1 0 3 fixed write; 0 protect 0 0 1 read; 0 store 1 0 37; 0 load 1 0; 1 store 0 0 61; 0 store 0 \
4194304 26; 1 store 0 4194304 96; 1 protect 0 512 1 none; 0 map 1 0 2 fixed write; 1 protect 0 512 1 write; 0 load 1 \
0; end
report: 1025 0 s0 answer 513 done; 1026 0 s1 answer 514 done; 1027 2 f claim 0 0 0; 1028 1 s0 answer 0 done miss 0; \
1029 1 s0 answer 1 denied; 1030 0 s0 answer 515 done; 1031 0 s1+f claim 0 1 1 for 0 write; 1032 1 s0 answer 2 done; \
1033 1 s0 answer 3 done; 1034 2 s0 failed 0 write 1; 1035 2 s0+f unclaim 0; 1036 0 s0 out 1 clean; 1037 2 f claim 0 0 \
0; 1038 0 s0+f give 1 1; 1039 0 s1+f use 0 1 0 3 3 0; 1040 0 s1 answer 516 done miss 0; 1041 0 s1 answer 517 value 37 \
hit 0; 1042 0 s0+f claim 0 2 2 for 512 write; 1043 0 s0 out 2 clean; 1044 0 s0+f give 2 2; 1045 0 s0+f use 512 2 512 \
513 1 0; 1046 0 s0 answer 518 done miss 0; 1047 0 s1 answer 519 overlap; 1048 0 s1 answer 520 value 37 hit 0; 1049 2 \
s0 out 0 written; 1050 2 s0+f give 0 0; 1051 2 f drop 0; 1052 2 f claim 0 3 3; 1053 2 s0 out 3 clean; 1054 2 s0+f give \
3 3; 1055 2 f drop 3; 1056 2 f rest 0; 1057 2 f rest 0; 1058 2 f rest 0; tiles 6 7 7 0; promotions 63; demotions 0; \
preemptions 0; images 2 515; frames 2 0 510; end

run: drawn beside a daemon from 10
turns: 1025 01203142332231221313430
stores: full
trace: trace 1 512 4 1; daemon 3 4; 0 map 0 0 512 fixed write; 0 store 0 0 5; 511 times 8192: 0 load 0 #; 0 map 0 512 \
8 fixed write; 0 load 0 4194304; 2 store 0 4186112 56; 1 grow 0 512 9; 2 evict 0 511; 2 load 0 4186112; 1 store 0 \
4194304 54; 1 store 0 4186112 16; 1 evict 0 511; 2 load 0 4194304; 2 load 0 4194304; 3 evict 0 512; 3 store 0 4186112 \
22; 3 store 0 4194304 75; 3 load 0 4186112; 0 store 0 4194304 7; end
report: 1025 0 s0 answer 513 done; 1026 1 s0 answer 0 notgrowing; 1027 2 s0 answer 0 done miss 0; 1028 0 s0+f claim 0 \
0 0 for 512 read; 1029 4 f claim 0 1 1; 1030 0 s0+f unclaim 0; 1031 0 s0 answer 514 nomemory; 1032 0 s0+f claim 0 0 0 \
for 512 write; 1033 0 s0+f unclaim 0; 1034 0 s0 answer 515 nomemory; 1035 1 s0+f claim 0 0 0 for 512 write; 1036 1 \
s0+f unclaim 0; 1037 1 s0 answer 1 nomemory; 1038 1 s0 answer 2 done miss 0; 1039 1 s0 answer 3 nomemory; 1040 2 s0 \
answer 1 nomemory; 1041 2 s0 answer 2 value 16 hit 0; 1042 2 s0+f claim 0 0 0 for 512 read; 1043 2 s0+f unclaim 0; \
1044 2 s0 answer 3 nomemory; 1045 2 s0+f claim 0 0 0 for 512 read; 1046 2 s0+f unclaim 0; 1047 2 s0 answer 4 nomemory; \
1048 3 s0 answer 0 clean; 1049 3 s0 answer 1 done miss 0; 1050 3 s0+f claim 0 0 0 for 512 write; 1051 3 s0+f unclaim \
0; 1052 3 s0 answer 2 nomemory; 1053 3 s0 answer 3 value 22 hit 0; 1054 4 s0 out 1 clean; 1055 4 s0+f give 1 1; 1056 4 \
f drop 1; 1057 4 f claim 0 0 0; 1058 4 s0+f unclaim 0; 1059 4 f claim 0 0 0; 1060 4 s0+f unclaim 0; 1061 4 f claim 0 0 \
0; 1062 4 s0+f unclaim 0; 1063 4 f claim 0 0 0; 1064 4 s0+f unclaim 0; tiles 15 14 6 0; promotions 63; demotions 1; \
preemptions 0; images 2 515; frames 1 0 511; end

run: drawn beside a daemon from 14
turns: 1026 00000210010112120220222210
stores: full
trace: trace 1 512 2 3; daemon 64 3; 0 map 0 0 509 wired write; 0 map 0 509 3 fixed write; 0 load 0 0; 511 times 8192: \
0 load 0 #; 0 map 0 512 2 fixed write; 0 map 0 515 8 fixed read; 0 map 1 0 3 fixed write; 0 map 2 0 2 fixed write; 1 \
evict 0 600; 1 store 1 0 14; 1 load 0 4202496; 1 grow 2 0 9; 1 store 2 0 54; 1 load 2 0; 1 store 1 0 3; end
report: 1026 0 s0 answer 514 done; 1027 0 s0 answer 515 done; 1028 0 s1 answer 516 done; 1029 0 s2 answer 517 done; \
1030 2 f claim 0 509 509; 1031 1 s0 answer 0 unmapped; 1032 1 s1+f claim 0 510 510 for 0 write; 1033 1 s0 out 510 \
clean; 1034 1 s0+f give 510 510; 1035 2 s0 out 509 clean; 1036 1 s1+f use 0 510 0 3 3 0; 1037 2 s0+f give 509 509; \
1038 2 f drop 509; 1039 2 f claim 0 511 511; 1040 2 s0 out 511 clean; 1041 2 s0+f give 511 511; 1042 2 f drop 511; \
1043 2 f claim 1 0 510; 1044 1 s1 answer 1 done miss 0; 1045 1 s0+f take 513 509 512 514 2 0; 1046 1 s0 answer 2 value \
0 miss 0; 1047 1 s2 answer 3 notgrowing; 1048 1 s2+f take 0 511 0 2 2 0; 1049 1 s2 answer 4 done miss 0; 1050 1 s2 \
answer 5 value 54 hit 0; 1051 1 s1 answer 6 done hit 0; 1052 2 s1+f unclaim 510; 1053 2 f claim 1 0 510; 1054 2 s1+f \
unclaim 510; 1055 2 f claim 1 0 510; 1056 2 s1+f unclaim 510; tiles 8 7 7 0; promotions 63; demotions 0; preemptions \
0; images 2 515; frames 0 0 512; end

run: drawn beside a daemon from 40
turns: 1025 000002231133011003201133032321
stores: reads writes 3; reads writes 3; reads writes 3
trace: trace 1 512 3 3; daemon 3 4; 0 map 0 0 512 fixed write; 0 store 0 0 5; 511 times 8192: 0 load 0 #; 0 map 0 512 \
2 fixed write; 0 map 0 521 1 wired write; 0 map 1 0 8 fixed write; 0 map 1 9 3 fixed write; 0 map 2 0 1 fixed write; 0 \
evict 0 521; 2 load 1 73728; 0 unmap 1 11; 1 evict 1 0; 0 load 0 4268032; 2 grow 1 9 1; 0 unmap 0 511; end
report: 1025 0 s0 answer 513 done; 1026 0 s0 answer 514 done; 1027 0 s1 answer 515 done; 1028 0 s1 answer 516 done; \
1029 0 s2 answer 517 done; 1030 2 s1+f claim 0 0 0 for 9 read; 1031 2 s0 out 0 written; 1032 3 f claim 0 1 1; 1033 1 \
s1 answer 0 clean; 1034 2 s0+f give 0 0; 1035 0 s0 answer 518 denied; 1036 3 s0 out 1 clean; 1037 3 s0+f give 1 1; \
1038 0 s1+f clear 9 3; 1039 3 f drop 1; 1040 3 f claim 0 2 2; 1041 0 s1 answer 519 done; 1042 0 s0+f take 521 1 521 \
522 1 1; 1043 0 s0 answer 520 value 0 miss 0; 1044 0 s0+f clear 0 512; 1045 0 s0 answer 521 done; 1046 2 f drop 0; \
1047 2 s1 answer 0 unmapped; 1048 2 s1 answer 1 unmapped; 1049 3 f got 2; 1050 3 f drop 2; 1051 3 f rest 0; 1052 3 f \
rest 0; 1053 3 f rest 0; 1054 3 f rest 0; tiles 1 0 0 0; promotions 64; demotions 15; preemptions 0; images 0 513; \
frames 511 0 1; end

run: drawn beside a daemon from 45
turns: 1025 00130310012222030022320321
stores: full
trace: trace 1 512 3 2; daemon 64 4; 0 map 0 0 512 fixed write; 0 store 0 0 5; 511 times 8192: 0 load 0 #; 0 map 0 512 \
1 growing write; 0 map 1 0 3 fixed write; 0 load 0 4194304; 0 store 1 0 49; 2 store 0 4194304 8; 2 evict 0 600; 0 load \
0 4194304; 0 protect 0 600 1 read; 1 load 1 0; 1 load 0 4194304; 0 evict 0 512; 1 load 0 4915200; 1 store 1 0 52; end
report: 1025 0 s0 answer 513 done; 1026 0 s1 answer 514 done; 1027 1 s1+f claim 0 0 0 for 0 read; 1028 3 f claim 0 1 \
1; 1029 0 s0+f claim 0 2 2 for 512 read; 1030 0 s0 out 2 clean; 1031 0 s0+f give 2 2; 1032 0 s0+f use 512 2 512 \
1048576 1 0; 1033 0 s0 answer 515 value 0 miss 0; 1034 0 s1+f claim 0 3 3 for 0 write; 1035 2 s0 answer 0 done miss 0; \
1036 2 s0 answer 1 unmapped; 1037 3 s0 out 1 clean; 1038 3 s0+f give 1 1; 1039 1 s0+f unclaim 0; 1040 0 s0 out 3 \
clean; 1041 0 s0+f give 3 3; 1042 0 s1+f use 0 3 0 3 3 0; 1043 0 s1 answer 516 done miss 0; 1044 0 s0 answer 517 value \
8 miss 0; 1045 0 s0 answer 518 unmapped; 1046 0 s0 answer 519 nomemory; 1047 1 s1 answer 0 nomemory; 1048 1 s0 answer \
1 value 8 miss 0; 1049 1 s0 answer 2 unmapped; 1050 1 s1 answer 3 done miss 0; 1051 3 f drop 1; 1052 3 f claim 0 0 0; \
1053 3 s0+f unclaim 0; 1054 3 f claim 0 0 0; 1055 3 s0+f unclaim 0; 1056 3 f claim 0 0 0; 1057 3 s0+f unclaim 0; 1058 \
3 f claim 0 0 0; 1059 3 s0+f unclaim 0; tiles 7 7 7 0; promotions 63; demotions 0; preemptions 0; images 0 518; frames \
1 0 511; end

run: drawn beside a daemon from 50
turns: 1025 002300230122301323121030
stores: reads writes 4; reads writes 4
trace: trace 1 512 3 2; daemon 2 5; 0 map 0 0 512 fixed write; 0 store 0 0 5; 511 times 8192: 0 load 0 #; 0 map 0 512 \
3 fixed write; 0 map 1 0 3 fixed write; 1 protect 1 1 1 write; 2 load 0 0; 1 protect 0 512 1 read; 0 load 0 0; 1 evict \
0 512; 2 store 1 0 60; 1 store 0 4194304 47; 1 load 0 0; 0 load 1 0; 0 load 0 4194304; 0 store 0 4194304 31; 2 load 0 \
0; 2 load 0 4194304; 2 protect 1 0 1 none; end
report: 1025 0 s0 answer 513 done; 1026 0 s1 answer 514 done; 1027 2 s0 answer 0 value 5 miss 0; 1028 3 f claim 0 0 0; \
1029 0 s0 answer 515 value 5 hit 0; 1030 0 s1+f claim 0 1 1 for 0 read; 1031 2 s1+f claim 0 2 2 for 0 write; 1032 3 s0 \
out 0 written; 1033 1 s1 answer 0 done; 1034 3 s0+f give 0 0; 1035 0 s0 out 1 clean; 1036 3 f drop 0; 1037 3 f claim 0 \
3 3; 1038 0 s0+f give 1 1; 1039 3 s0 out 3 clean; 1040 0 s1+f use 0 0 0 3 3 0; 1041 0 s1 answer 516 value 0 miss 0; \
1042 3 s0+f give 3 3; 1043 0 s0+f take 512 1 512 515 3 0; 1044 0 s0 answer 517 value 0 miss 0; 1045 0 s0 answer 518 \
done hit 0; 1046 1 s0 answer 1 done; 1047 1 s0+f answer 2 written; 1048 1 s0 answer 3 denied; 1049 1 s0+f take 0 1 0 \
512 512 0; 1050 1 s0 answer 4 value 5 miss 0; 1051 2 s0 out 2 clean; 1052 2 s0+f give 2 2; 1053 2 f drop 2; 1054 2 s1 \
answer 1 done miss 0; 1055 2 s0 answer 2 value 5 miss 0; 1056 2 s0+f take 512 2 512 515 3 0; 1057 2 s0 answer 3 value \
31 miss 0; 1058 2 s1 answer 4 done; 1059 3 f drop 3; 1060 3 f rest 1; 1061 3 f claim 0 4 4; 1062 3 s0 out 4 clean; \
1063 3 s0+f give 4 4; 1064 3 f drop 4; 1065 3 f rest 0; 1066 3 f rest 0; 1067 3 f rest 0; 1068 3 f rest 0; tiles 6 7 7 \
0; promotions 64; demotions 1; preemptions 0; images 2 519; frames 2 0 510; end

run: drawn beside a daemon from 78
turns: 1026 000111212001100000110222120222221202200121010
stores: reads writes 3 4
trace: trace 1 512 2 1; daemon 3 5; 0 map 0 0 510 wired write; 0 map 0 510 2 fixed write; 0 load 0 0; 511 times 8192: \
0 load 0 #; 0 map 0 512 3 growing write; 0 map 0 517 8 fixed read; 1 evict 0 514; 1 store 0 0 16; 0 load 0 4284416; 1 \
load 0 4210688; 1 load 0 4284416; 0 load 0 4284416; 1 protect 0 514 1 read; 0 load 0 4284416; 0 load 0 4284416; 1 \
store 0 4194304 22; 0 store 0 4284416 46; 0 store 0 4284416 68; end
report: 1026 0 s0 answer 514 done; 1027 0 s0 answer 515 done; 1028 0 s0+f claim 0 510 510 for 523 read; 1029 2 f claim \
0 511 511; 1030 0 s0 out 510 clean; 1031 0 s0+f give 510 510; 1032 0 s0+f use 523 510 517 525 8 0; 1033 0 s0 answer \
516 value 0 miss 0; 1034 0 s0 answer 517 value 0 hit 0; 1035 0 s0 answer 518 value 0 hit 0; 1036 0 s0 answer 519 value \
0 hit 0; 1037 1 s0 answer 0 clean; 1038 1 s0 answer 1 done miss 0; 1039 0 s0 answer 520 denied; 1040 2 s0 out 511 \
clean; 1041 2 s0+f give 511 511; 1042 2 f drop 511; 1043 1 s0+f take 514 511 512 517 3 0; 1044 2 f claim 0 523 510; \
1045 1 s0 answer 2 value 0 miss 0; 1046 2 s0 out 523 clean; 1047 2 s0+f give 523 510; 1048 2 f drop 510; 1049 0 s0 \
answer 521 denied; 1050 1 s0+f take 523 510 517 525 8 0; 1051 2 f claim 0 514 511; 1052 1 s0 answer 3 value 0 miss 0; \
1053 1 s0 answer 4 done; 1054 1 s0+f claim 0 523 510 for 512 write; 1055 1 s0 out 523 clean; 1056 1 s0+f give 523 510; \
1057 1 s0+f use 512 510 512 517 3 0; 1058 1 s0 answer 5 done miss 0; 1059 2 s0 out 514 clean; 1060 2 s0+f give 514 \
511; 1061 2 f drop 511; 1062 2 f rest 1; 1063 2 f claim 0 512 510; 1064 2 s0 out 512 written; 1065 2 s0+f give 512 \
510; 1066 2 f drop 510; 1067 2 f rest 0; 1068 2 f rest 0; 1069 2 f rest 0; 1070 2 f rest 0; tiles 14 14 6 0; \
promotions 63; demotions 1; preemptions 0; images 3 517; frames 2 0 510; end

run: drawn beside a daemon from 91
turns: 1026 0000021220102011020021122121022121120
stores: reads 513 514 writes 3; reads 1 2 writes 3; reads 1 2 writes 3
trace: trace 1 512 2 3; daemon 1 2; 0 map 0 0 511 wired write; 0 map 0 511 1 fixed write; 0 load 0 0; 511 times 8192: \
0 load 0 #; 0 map 0 512 2 growing read; 0 map 0 521 8 fixed write; 0 map 1 0 2 fixed read; 0 map 2 0 8 wired write; 0 \
map 2 13 8 wired read; 1 load 1 0; 0 store 2 106496 71; 1 load 0 4194304; 1 protect 0 512 1 read; 1 store 0 4202496 \
84; 1 grow 2 15 9; 1 unmap 1 0; 1 unmap 0 521; 1 grow 2 6 9; 0 sync 0 0; 0 protect 0 521 1 write; end
report: 1026 0 s0 answer 514 done; 1027 0 s0 answer 515 done; 1028 0 s1 answer 516 done; 1029 0 s2 answer 517 done; \
1030 0 s2 answer 518 done; 1031 2 f claim 0 511 511; 1032 1 f refused 511 1 0; 1033 2 s0 out 511 clean; 1034 2 s0+f \
give 511 511; 1035 0 s2 answer 519 denied; 1036 1 s1 answer 0 noframes 511 1 0; 1037 0 s0 answer 520 clean; 1038 2 f \
drop 511; 1039 0 s0 answer 521 done; 1040 1 s0+f take 512 511 512 521 2 0; 1041 1 s0 failed 512 read 1; 1042 2 f rest \
1; 1043 2 f claim 0 512 511; 1044 1 s0+f give 512 511; 1045 1 s0 answer 1 storefault 0 1; 1046 2 f got 511; 1047 2 f \
drop 511; 1048 1 s0 answer 2 done; 1049 2 f rest 0; 1050 1 s0 answer 3 denied; 1051 1 s2 answer 4 notgrowing; 1052 1 \
s1+f clear 0 2; 1053 1 s1 answer 5 done; 1054 1 s0+f clear 521 8; 1055 1 s0 answer 6 done; 1056 1 s2 answer 7 \
notgrowing; tiles 7 7 7 0; promotions 63; demotions 0; preemptions 0; images 0 512; frames 1 0 511; end

run: drawn beside a daemon from 120
turns: 1026 00221222114403110003334334300032241133423223
stores: reads writes 2
trace: trace 1 512 4 1; daemon 1 2; 0 map 0 0 511 wired write; 0 map 0 511 1 fixed write; 0 load 0 0; 511 times 8192: \
0 load 0 #; 0 map 0 512 8 fixed write; 0 map 0 523 3 fixed write; 2 load 0 4300800; 1 protect 0 0 1 read; 1 protect 0 \
0 1 none; 1 load 0 0; 1 grow 0 525 1; 1 store 0 0 29; 2 protect 0 515 1 write; 1 load 0 4300800; 0 store 0 4300800 30; \
0 store 0 0 49; end
report: 1026 0 s0 answer 514 done; 1027 0 s0 answer 515 done; 1028 2 s0+f claim 0 511 511 for 525 read; 1029 2 s0 out \
511 clean; 1030 2 s0+f give 511 511; 1031 2 s0+f use 525 511 523 526 3 0; 1032 2 s0 answer 0 value 0 miss 0; 1033 1 s0 \
answer 0 done; 1034 1 s0 answer 1 done; 1035 4 f claim 0 525 511; 1036 4 s0 out 525 clean; 1037 4 s0+f give 525 511; \
1038 4 f drop 511; 1039 0 s0+f take 525 511 523 526 3 0; 1040 0 s0 answer 516 done miss 0; 1041 0 s0 answer 517 \
denied; 1042 2 s0 answer 1 done; 1043 4 f rest 1; 1044 1 s0 answer 2 denied; 1045 1 s0 answer 3 notgrowing; 1046 4 f \
claim 0 525 511; 1047 1 s0 answer 4 denied; 1048 1 s0 answer 5 value 30 miss 0; 1049 4 s0 out 525 written; 1050 4 s0+f \
give 525 511; 1051 4 f drop 511; 1052 4 f rest 0; tiles 15 14 6 0; promotions 63; demotions 1; preemptions 0; images 0 \
515; frames 1 0 511; end

run: drawn beside a daemon from 154
turns: 1026 00001221022100210002120110201210222012000121200
stores: reads 513 515 writes 3; reads 1 3 writes 3
trace: trace 1 512 2 2; daemon 2 5; 0 map 0 0 510 wired write; 0 map 0 510 2 fixed write; 0 load 0 0; 511 times 8192: \
0 load 0 #; 0 map 0 512 1 growing write; 0 map 1 0 1 growing write; 0 map 1 7 8 growing write; 0 load 0 4194304; 1 \
load 0 4194304; 0 map 0 515 2 fixed write; 0 protect 0 0 1 write; 0 protect 0 512 1 read; 1 load 0 4194304; 1 protect \
1 11 1 read; 1 store 1 0 43; 0 store 0 4194304 12; 0 evict 0 512; 1 load 0 0; end
report: 1026 0 s0 answer 514 done; 1027 0 s1 answer 515 done; 1028 0 s1 answer 516 done; 1029 0 s0+f claim 0 510 510 \
for 512 read; 1030 2 f claim 0 511 511; 1031 0 s0 out 510 clean; 1032 0 s0+f give 510 510; 1033 0 s0+f use 512 510 512 \
1048576 1 0; 1034 0 s0 failed 512 read 1; 1035 0 s0+f give 512 510; 1036 0 s0 answer 517 storefault 0 1; 1037 2 s0 out \
511 clean; 1038 2 s0+f give 511 511; 1039 0 s0 answer 518 done; 1040 1 s0+f take 512 510 512 515 1 0; 1041 1 s0 answer \
0 value 0 miss 0; 1042 0 s0 answer 519 done; 1043 2 f drop 511; 1044 0 s0 answer 520 done; 1045 1 s0 answer 1 value 0 \
miss 0; 1046 2 f claim 0 512 510; 1047 1 s1 answer 2 done; 1048 0 s0 answer 521 denied; 1049 2 s0 out 512 clean; 1050 \
2 s0+f give 512 510; 1051 2 f drop 510; 1052 0 s0 answer 522 clean; 1053 1 s1+f take 0 510 0 7 1 0; 1054 2 f rest 1; \
1055 1 s1 failed 0 read 1; 1056 2 f claim 1 0 510; 1057 1 s1+f give 0 510; 1058 1 s1 answer 3 storefault 1 1; 1059 1 \
s0 answer 4 value 0 miss 2; 1060 2 f got 510; 1061 2 f drop 510; 1062 2 f rest 0; 1063 2 f rest 0; 1064 2 f rest 0; \
1065 2 f rest 0; tiles 6 7 7 0; promotions 63; demotions 0; preemptions 0; images 0 515; frames 2 0 510; end

run: drawn beside a daemon from 180
turns: 1025 00212220110000121222221112001001021
stores: reads 513 writes
trace: trace 1 512 2 1; daemon 3 2; 0 map 0 0 512 fixed write; 0 store 0 0 5; 511 times 8192: 0 load 0 #; 0 map 0 512 \
8 fixed write; 0 map 0 521 1 fixed write; 0 load 0 4194304; 1 protect 0 514 1 read; 1 protect 0 0 1 write; 1 load 0 \
4268032; 1 protect 0 521 1 none; 0 evict 0 521; 0 protect 0 521 1 write; 0 store 0 0 54; 0 load 0 4210688; end
report: 1025 0 s0 answer 513 done; 1026 0 s0 answer 514 done; 1027 2 f claim 0 0 0; 1028 1 s0 answer 0 done; 1029 2 s0 \
out 0 written; 1030 2 s0+f give 0 0; 1031 2 f drop 0; 1032 0 s0+f take 512 0 512 520 8 0; 1033 0 s0 failed 512 read 1; \
1034 0 s0+f give 512 0; 1035 0 s0 answer 515 storefault 0 1; 1036 0 s0 answer 516 clean; 1037 1 s0 answer 1 done; 1038 \
2 f claim 0 1 1; 1039 1 s0+f take 521 0 521 522 1 0; 1040 1 s0 answer 2 value 0 miss 0; 1041 1 s0 answer 3 done; 1042 \
2 s0 out 1 clean; 1043 2 s0+f give 1 1; 1044 0 s0 answer 517 done; 1045 0 s0+f claim 0 2 2 for 0 write; 1046 0 s0 out \
2 clean; 1047 0 s0+f give 2 2; 1048 0 s0+f use 0 2 0 512 512 0; 1049 0 s0 answer 518 done miss 0; 1050 0 s0+f claim 0 \
3 3 for 514 read; 1051 0 s0 out 3 clean; 1052 0 s0+f give 3 3; 1053 0 s0+f use 514 3 512 520 8 0; 1054 0 s0 answer 519 \
value 0 miss 0; 1055 2 f drop 1; 1056 2 f claim 0 4 4; 1057 2 s0 out 4 clean; 1058 2 s0+f give 4 4; 1059 2 f drop 4; \
1060 2 f rest 1; 1061 2 f claim 0 5 5; 1062 2 s0 out 5 clean; 1063 2 s0+f give 5 5; 1064 2 f drop 5; 1065 2 f rest 0; \
tiles 5 7 7 0; promotions 64; demotions 1; preemptions 0; images 0 515; frames 3 0 509; end

run: drawn beside a daemon from 204
turns: 1025 00321112111233122130133320332132031
stores: reads writes 2
trace: trace 1 512 3 1; daemon 2 4; 0 map 0 0 512 fixed write; 0 store 0 0 5; 511 times 8192: 0 load 0 #; 0 map 0 512 \
1 wired write; 2 store 0 4194304 47; 2 load 0 4194304; 2 load 0 0; 1 protect 0 512 1 none; 2 store 0 4194304 37; 0 \
sync 0 512; 1 load 0 4194304; 1 load 0 4194304; 2 load 0 4194304; 0 grow 0 0 1; 0 sync 0 0; 0 load 0 4194304; 0 \
protect 0 0 1 read; end
report: 1025 0 s0 answer 513 done; 1026 0 s0 answer 514 clean; 1027 3 f claim 0 0 0; 1028 2 s0+f claim 0 1 1 for 512 \
write; 1029 2 s0 out 1 clean; 1030 2 s0+f give 1 1; 1031 2 s0+f use 512 1 512 513 1 1; 1032 2 s0 answer 0 done miss 0; \
1033 1 s0 answer 0 done; 1034 3 s0 out 0 written; 1035 3 s0+f give 0 0; 1036 3 f drop 0; 1037 3 f claim 0 2 2; 1038 2 \
s0 answer 1 denied; 1039 0 s0 answer 515 notgrowing; 1040 3 s0 out 2 clean; 1041 3 s0+f give 2 2; 1042 2 s0+f take 0 0 \
0 512 512 0; 1043 3 f drop 2; 1044 2 s0 answer 2 value 5 miss 0; 1045 0 s0 answer 516 clean; 1046 3 f rest 1; 1047 1 \
s0 answer 1 denied; 1048 0 s0 answer 517 denied; 1049 0 s0 answer 518 done; 1050 1 s0 answer 2 denied; 1051 2 s0 \
answer 3 denied; 1052 2 s0 answer 4 denied; 1053 3 f claim 0 3 3; 1054 3 s0 out 3 clean; 1055 3 s0+f give 3 3; 1056 3 \
f drop 3; 1057 3 f rest 0; 1058 3 f rest 0; 1059 3 f rest 0; tiles 6 7 7 0; promotions 63; demotions 0; preemptions 0; \
images 0 514; frames 2 0 510; end

run: drawn beside a daemon from 218
turns: 1026 003311331111303220312012011133031001021031
stores: reads writes 2 4
trace: trace 1 512 3 1; daemon 3 2; 0 map 0 0 511 wired write; 0 map 0 511 1 fixed write; 0 load 0 0; 511 times 8192: \
0 load 0 #; 0 map 0 512 3 fixed write; 0 map 0 520 8 fixed write; 0 unmap 0 512; 1 store 0 4259840 4; 0 store 0 \
4259840 64; 0 store 0 0 39; 0 grow 0 512 9; 2 load 0 4194304; 0 sync 0 512; 2 load 0 4259840; 2 store 0 0 63; 2 load 0 \
4194304; 0 store 0 4194304 4; 2 evict 0 525; 2 unmap 0 525; 1 evict 0 0; 0 unmap 0 525; end
report: 1026 0 s0 answer 514 done; 1027 0 s0 answer 515 done; 1028 3 f claim 0 511 511; 1029 3 s0 out 511 clean; 1030 \
3 s0+f give 511 511; 1031 3 f drop 511; 1032 1 s0+f take 520 511 520 528 8 0; 1033 1 s0 answer 0 done miss 0; 1034 1 \
s0 answer 1 denied; 1035 3 f claim 0 520 511; 1036 0 s0+f clear 512 3; 1037 0 s0 answer 516 done; 1038 3 s0 out 520 \
written; 1039 3 s0+f give 520 511; 1040 3 f drop 511; 1041 0 s0+f take 520 511 520 528 8 0; 1042 3 f claim 0 520 511; \
1043 0 s0 answer 517 done miss 0; 1044 0 s0 answer 518 done hit 0; 1045 0 s0 answer 519 unmapped; 1046 2 s0 answer 0 \
unmapped; 1047 0 s0 answer 520 unmapped; 1048 3 s0 failed 520 write 1; 1049 3 s0+f unclaim 511; 1050 0 s0 answer 521 \
unmapped; 1051 0 s0+f clear 520 8; 1052 0 s0 answer 522 done; 1053 2 s0 answer 1 unmapped; 1054 2 s0 answer 2 done \
miss 0; 1055 2 s0 answer 3 unmapped; 1056 2 s0 answer 4 unmapped; 1057 2 s0 answer 5 unmapped; 1058 3 f rest 0; tiles \
15 14 6 0; promotions 63; demotions 1; preemptions 0; images 1 515; frames 1 0 511; end

run: drawn beside a daemon from 229
turns: 1026 004011022001340221323404432014
stores: reads 514 515 writes 1
trace: trace 1 512 4 1; daemon 64 4; 0 map 0 0 511 wired write; 0 map 0 511 1 fixed write; 0 load 0 0; 511 times 8192: \
0 load 0 #; 0 map 0 512 3 fixed write; 3 load 0 4194304; 2 load 0 4194304; 3 load 0 4915200; 2 store 0 4210688 73; 3 \
load 0 4210688; 0 load 0 4194304; 1 evict 0 514; 0 load 0 4194304; 1 load 0 4194304; 1 load 0 4915200; 2 protect 0 600 \
1 none; end
report: 1026 0 s0 answer 514 done; 1027 0 s0+f claim 0 511 511 for 512 read; 1028 4 f rest 0; 1029 0 s0 out 511 clean; \
1030 0 s0+f give 511 511; 1031 0 s0+f use 512 511 512 515 3 0; 1032 0 s0 answer 515 value 0 miss 0; 1033 1 s0 answer 0 \
clean; 1034 3 s0 answer 0 value 0 miss 0; 1035 4 f claim 0 512 511; 1036 0 s0 answer 516 value 0 hit 0; 1037 2 s0 \
answer 0 value 0 miss 0; 1038 2 f refused 511 1 0; 1039 2 s0 answer 1 noframes 511 1 0; 1040 3 s0 answer 1 unmapped; \
1041 4 s0 out 512 clean; 1042 4 s0+f give 512 511; 1043 4 f drop 511; 1044 3 s0+f take 514 511 512 515 3 0; 1045 4 f \
claim 0 514 511; 1046 3 s0 failed 514 read 1; 1047 3 s0+f give 514 511; 1048 3 s0 answer 2 storefault 0 1; 1049 1 f \
refused 511 0 1; 1050 1 s0 answer 1 noframes 511 0 1; 1051 1 s0 answer 2 unmapped; 1052 2 s0 answer 2 unmapped; 1053 4 \
f got 511; 1054 4 f drop 511; 1055 4 f rest 0; 1056 4 f rest 0; 1057 4 f rest 0; tiles 7 7 7 0; promotions 63; \
demotions 0; preemptions 0; images 1 515; frames 1 0 511; end

run: drawn beside a daemon from 242
turns: 1025 0302321003332201100112122111001102221313
stores: reads 513 516 writes
trace: trace 1 512 3 1; daemon 3 3; 0 map 0 0 512 fixed write; 0 load 0 0; 511 times 8192: 0 load 0 #; 0 map 0 512 2 \
fixed write; 2 load 0 0; 1 sync 0 0; 1 evict 0 0; 0 load 0 4194304; 0 protect 0 0 1 read; 0 store 0 0 93; 1 store 0 0 \
58; 2 load 0 4194304; 2 load 0 4202496; 0 load 0 4194304; end
report: 1025 0 s0 answer 513 done; 1026 3 f claim 0 0 0; 1027 0 s0+f claim 0 1 1 for 512 read; 1028 0 s0 out 1 clean; \
1029 0 s0+f give 1 1; 1030 0 s0+f use 512 1 512 514 2 0; 1031 0 s0 failed 512 read 1; 1032 0 s0+f give 512 1; 1033 0 \
s0 answer 514 storefault 0 1; 1034 0 s0 answer 515 done; 1035 1 s0 answer 0 clean; 1036 1 s0+f answer 1 clean; 1037 0 \
s0 answer 516 denied; 1038 2 s0+f take 0 1 0 512 512 0; 1039 2 s0 answer 0 value 0 miss 0; 1040 2 s0+f claim 0 2 2 for \
512 read; 1041 2 s0 out 2 clean; 1042 2 s0+f give 2 2; 1043 2 s0+f use 512 2 512 514 2 0; 1044 2 s0 answer 1 value 0 \
miss 0; 1045 0 s0 answer 517 value 0 miss 0; 1046 1 s0 answer 2 denied; 1047 2 s0+f claim 0 3 3 for 513 read; 1048 2 \
s0 out 3 clean; 1049 2 s0+f give 3 3; 1050 2 s0+f use 513 3 512 514 2 0; 1051 2 s0 failed 513 read 2; 1052 2 s0+f give \
513 3; 1053 2 s0 answer 2 storefault 0 2; 1054 3 f got 0; 1055 3 f drop 0; 1056 3 f claim 0 4 4; 1057 3 s0 out 4 \
clean; 1058 3 s0+f give 4 4; 1059 3 f drop 4; 1060 3 f rest 0; 1061 3 f rest 0; 1062 3 f rest 0; tiles 5 7 7 0; \
promotions 64; demotions 1; preemptions 0; images 0 515; frames 3 0 509; end

run: drawn beside a daemon from 411
turns: 1025 02222121200021202000022202210010
stores: reads 516 writes 1 3
trace: trace 1 512 2 1; daemon 1 3; 0 map 0 0 512 fixed write; 0 store 0 0 5; 511 times 8192: 0 load 0 #; 0 map 0 512 \
8 fixed write; 1 evict 0 0; 1 protect 0 0 1 read; 0 load 0 0; 1 store 0 4194304 97; 1 load 0 4202496; 0 grow 0 0 1; 1 \
grow 0 512 9; 1 store 0 4202496 16; 0 load 0 4202496; 0 store 0 0 12; end
report: 1025 0 s0 answer 513 done; 1026 2 f claim 0 0 0; 1027 2 s0 failed 0 write 1; 1028 2 s0+f unclaim 0; 1029 2 f \
claim 0 0 0; 1030 1 s0+f answer 0 written; 1031 2 f got 0; 1032 1 s0 answer 1 done; 1033 2 f drop 0; 1034 0 s0+f take \
0 0 0 512 512 0; 1035 0 s0 answer 514 value 5 miss 0; 1036 0 s0 answer 515 notgrowing; 1037 2 f rest 1; 1038 1 s0+f \
claim 0 1 1 for 512 write; 1039 2 f claim 0 2 2; 1040 1 s0 out 1 clean; 1041 1 s0+f give 1 1; 1042 1 s0+f use 512 1 \
512 520 8 0; 1043 1 s0 answer 2 done miss 0; 1044 0 s0+f claim 0 3 3 for 513 read; 1045 0 s0 out 3 clean; 1046 0 s0+f \
give 3 3; 1047 0 s0+f use 513 3 512 520 8 0; 1048 0 s0 answer 516 value 0 miss 0; 1049 0 s0 answer 517 denied; 1050 1 \
s0 answer 3 value 0 miss 0; 1051 1 s0 answer 4 notgrowing; 1052 1 s0 answer 5 done hit 0; 1053 2 s0 out 2 clean; 1054 \
2 s0+f give 2 2; 1055 2 f drop 2; 1056 2 f rest 0; tiles 7 7 7 0; promotions 63; demotions 0; preemptions 0; images 1 \
516; frames 1 0 511; end

run: drawn beside a daemon from 594
turns: 1025 00022112212212221010110222000000022001
stores: reads 515 516 writes 1; reads 3 4 writes 1
trace: trace 1 512 2 2; daemon 1 5; 0 map 0 0 512 fixed write; 0 store 0 0 5; 511 times 8192: 0 load 0 #; 0 map 0 512 \
8 fixed write; 0 map 1 0 2 growing write; 0 map 1 7 1 growing read; 0 grow 1 0 9; 0 evict 0 512; 1 unmap 0 512; 0 map \
1 1048575 2 fixed write; 1 grow 1 7 1; 1 sync 0 512; 0 store 0 4194304 93; 1 load 0 0; 1 load 0 0; 1 load 1 57344; end
report: 1025 0 s0 answer 513 done; 1026 0 s1 answer 514 done; 1027 0 s1 answer 515 done; 1028 2 f claim 0 0 0; 1029 2 \
s0 failed 0 write 1; 1030 2 s0+f unclaim 0; 1031 2 f claim 0 0 0; 1032 1 s0+f clear 512 8; 1033 1 s0 answer 0 done; \
1034 2 s0 out 0 written; 1035 2 s0+f give 0 0; 1036 2 f drop 0; 1037 1 s1 answer 1 done; 1038 0 s1 answer 516 overlap; \
1039 1 s0 answer 2 unmapped; 1040 0 s0 answer 517 unmapped; 1041 1 s0+f take 0 0 0 512 512 0; 1042 1 s0 answer 3 value \
5 miss 3; 1043 0 s1 answer 518 outofspace; 1044 2 f rest 1; 1045 2 f claim 0 1 1; 1046 2 s0 out 1 clean; 1047 2 s0+f \
give 1 1; 1048 2 f drop 1; 1049 0 s0 answer 519 unmapped; 1050 1 s0 answer 4 value 5 miss 0; 1051 1 s1+f take 7 1 7 \
1048576 2 0; 1052 1 s1 answer 5 value 0 miss 0; 1053 2 f rest 1; 1054 2 f claim 0 2 2; 1055 2 s0 out 2 clean; 1056 2 \
s0+f give 2 2; 1057 2 f drop 2; 1058 2 f rest 0; 1059 2 f rest 0; tiles 7 7 7 0; promotions 65; demotions 2; \
preemptions 0; images 0 515; frames 1 0 511; end

run: drawn beside a daemon from 669
turns: 1025 0002313111233302120311321323102232
stores: reads 515 writes 1 2; reads 3 writes 1 2; reads 3 writes 1 2
trace: trace 1 512 3 3; daemon 2 5; 0 map 0 0 512 fixed write; 0 store 0 0 5; 511 times 8192: 0 load 0 #; 0 map 0 512 \
3 fixed read; 0 map 1 0 2 wired read; 0 map 2 0 2 wired write; 2 load 0 4915200; 0 sync 0 600; 1 load 2 0; 1 load 0 \
4915200; 2 grow 2 0 1; 1 protect 0 513 1 read; 1 evict 2 0; 0 load 0 4202496; 1 protect 0 513 1 read; 1 store 2 0 85; \
0 store 0 4202496 55; 2 protect 0 600 1 read; 1 load 0 4202496; end
report: 1025 0 s0 answer 513 done; 1026 0 s1 answer 514 done; 1027 0 s2 answer 515 done; 1028 2 s0 answer 0 unmapped; \
1029 3 f claim 0 0 0; 1030 1 s2+f claim 0 1 1 for 0 read; 1031 3 s0 failed 0 write 1; 1032 2 s2 answer 1 notgrowing; \
1033 3 s0+f unclaim 0; 1034 3 f claim 0 0 0; 1035 3 s0 failed 0 write 2; 1036 3 s0+f unclaim 0; 1037 1 s0 out 1 clean; \
1038 1 s0+f give 1 1; 1039 3 f claim 0 0 0; 1040 2 s0 answer 2 unmapped; 1041 1 s2+f use 0 1 0 2 2 1; 1042 3 s0 out 0 \
written; 1043 3 s0+f give 0 0; 1044 1 s2 answer 0 value 0 miss 0; 1045 0 s0 answer 516 unmapped; 1046 3 f drop 0; 1047 \
0 s0+f take 513 0 512 515 3 0; 1048 0 s0 answer 517 value 0 miss 0; 1049 0 s0 answer 518 denied; 1050 1 s0 answer 1 \
unmapped; 1051 1 s0 answer 2 done; 1052 1 s2 answer 3 denied; 1053 1 s0 answer 4 done; 1054 1 s2 answer 5 done hit 0; \
1055 1 s0 answer 6 value 0 miss 0; 1056 3 f claim 0 2 2; 1057 3 s0 out 2 clean; 1058 3 s0+f give 2 2; 1059 3 f drop 2; \
1060 3 f rest 1; 1061 3 f claim 0 3 3; 1062 3 s0 out 3 clean; 1063 3 s0+f give 3 3; 1064 3 f drop 3; 1065 3 f rest 0; \
1066 3 f rest 0; tiles 6 7 7 0; promotions 63; demotions 0; preemptions 0; images 1 515; frames 2 0 510; end

run: drawn beside a daemon from 939
turns: 1025 0020110021111000221012022102111020011010010
stores: reads writes 1 3
trace: trace 1 512 2 1; daemon 2 4; 0 map 0 0 512 fixed write; 0 store 0 0 5; 511 times 8192: 0 load 0 #; 0 map 0 512 \
3 fixed write; 0 map 0 520 3 growing write; 0 load 0 4259840; 1 load 0 4259840; 1 store 0 0 4; 1 grow 0 512 9; 0 load \
0 4259840; 1 store 0 0 78; 1 store 0 4210688 18; 0 unmap 0 520; 1 load 0 4259840; 1 store 0 4194304 43; end
report: 1025 0 s0 answer 513 done; 1026 0 s0 answer 514 done; 1027 2 f claim 0 0 0; 1028 0 s0+f claim 0 1 1 for 520 \
read; 1029 0 s0 out 1 clean; 1030 0 s0+f give 1 1; 1031 0 s0+f use 520 1 520 1048576 3 0; 1032 0 s0 answer 515 value 0 \
miss 0; 1033 0 s0 answer 516 value 0 hit 0; 1034 2 s0 failed 0 write 1; 1035 2 s0+f unclaim 0; 1036 1 s0 answer 0 \
value 0 miss 0; 1037 0 s0+f clear 520 3; 1038 2 f claim 0 0 0; 1039 0 s0 answer 517 done; 1040 2 s0 out 0 written; \
1041 2 s0+f give 0 0; 1042 1 s0+f take 0 1 0 512 512 0; 1043 2 f drop 0; 1044 1 s0 answer 1 done miss 0; 1045 1 s0 \
answer 2 notgrowing; 1046 1 s0 answer 3 done hit 0; 1047 2 f claim 0 2 2; 1048 1 s0+f take 514 0 512 515 3 0; 1049 1 \
s0 answer 4 done miss 0; 1050 1 s0 answer 5 unmapped; 1051 1 s0+f claim 0 3 3 for 512 write; 1052 1 s0 out 3 clean; \
1053 1 s0+f give 3 3; 1054 1 s0+f use 512 3 512 515 3 0; 1055 1 s0 answer 6 done miss 0; 1056 2 s0 out 2 clean; 1057 2 \
s0+f give 2 2; 1058 2 f drop 2; 1059 2 f rest 1; 1060 2 f claim 0 4 4; 1061 2 s0 out 4 clean; 1062 2 s0+f give 4 4; \
1063 2 f drop 4; 1064 2 f rest 0; 1065 2 f rest 0; tiles 6 7 7 0; promotions 63; demotions 0; preemptions 0; images 2 \
517; frames 2 0 510; end

run: drawn beside a daemon from 1491
turns: 1025 021012102020022101221211102222220220
stores: reads 513 writes 1 4
trace: trace 1 512 2 1; daemon 1 3; 0 map 0 0 512 fixed write; 0 store 0 0 5; 511 times 8192: 0 load 0 #; 0 map 0 512 \
8 fixed write; 0 store 0 4915200 28; 1 load 0 4194304; 0 store 0 4194304 82; 1 load 0 4251648; 1 load 0 4194304; 1 \
evict 0 519; 0 load 0 4194304; 1 load 0 4251648; 0 protect 0 512 1 none; 1 store 0 4251648 76; end
report: 1025 0 s0 answer 513 done; 1026 2 f claim 0 0 0; 1027 1 s0+f claim 0 1 1 for 512 read; 1028 1 s0 out 1 clean; \
1029 1 s0+f give 1 1; 1030 1 s0+f use 512 1 512 520 8 0; 1031 1 s0 failed 512 read 1; 1032 1 s0+f give 512 1; 1033 1 \
s0 answer 0 storefault 0 1; 1034 1 s0+f take 519 1 512 520 8 0; 1035 1 s0 answer 1 value 0 miss 0; 1036 0 s0 answer \
514 unmapped; 1037 2 s0 failed 0 write 2; 1038 2 s0+f unclaim 0; 1039 2 f claim 0 0 0; 1040 2 s0 out 0 written; 1041 2 \
s0+f give 0 0; 1042 2 f drop 0; 1043 0 s0+f take 512 0 512 520 8 0; 1044 2 f rest 1; 1045 2 f claim 0 2 2; 1046 0 s0 \
answer 515 done miss 0; 1047 0 s0 answer 516 value 82 hit 0; 1048 0 s0 answer 517 done; 1049 1 s0 answer 2 denied; \
1050 1 s0+f answer 3 clean; 1051 1 s0+f take 519 1 512 520 8 0; 1052 1 s0 answer 4 value 0 miss 0; 1053 1 s0 answer 5 \
done hit 0; 1054 2 s0 out 2 clean; 1055 2 s0+f give 2 2; 1056 2 f drop 2; 1057 2 f rest 0; tiles 7 7 7 0; promotions \
63; demotions 0; preemptions 0; images 2 515; frames 1 0 511; end

run: drawn with wires beside a daemon from 12
turns: 1025 00002300010330312101033333001
stores: reads writes 3 4; reads writes 3 4
trace: trace 3 512 3 2 0123; daemon 1 3; 0 map 0 0 512 fixed write; 0 store 0 0 5; 511 times 8192: 0 load 0 #; 0 map 0 \
512 1 fixed read; 0 map 1 0 2 wired write; 0 map 1 9 3 fixed write; 1 wire 1 9; 0 store 1 73728 66; 1 load 0 4915200; \
1 discard 1 0 1; 2 load 1 73728; 1 store 1 0 59; 0 wire 0 511; 1 load 1 73728; 1 evict 0 511; 0 evict 0 511; end
report: 1025 0 s0 answer 513 done; 1026 0 s1 answer 514 done; 1027 0 s1 answer 515 done; 1028 0 s1+f claim 0 0 0 for 9 \
write; 1029 2 s1+f claim 0 1 1 for 9 read; 1030 3 f claim 0 2 2; 1031 0 s0 out 0 written; 1032 0 s0+f give 0 0; 1033 0 \
s1+f use 9 0 9 12 3 0; 1034 0 s1 answer 516 done miss 0; 1035 3 s0 out 2 clean; 1036 3 s0+f give 2 2; 1037 0 s0+f kept \
0 512 1 1; 1038 3 f drop 2; 1039 1 s1+f pin 9 3 1; 1040 1 s1 answer 0 done; 1041 0 s0 answer 517 busy 1; 1042 1 s0 \
answer 1 unmapped; 1043 0 s0+f answer 518 clean; 1044 3 f rest 0; 1045 3 f rest 0; 1046 3 f rest 0; 1047 1 s1 answer 2 \
denied; 1048 1 s1+f take 0 2 0 2 2 1; 1049 1 s1 answer 3 done miss 0; 1050 1 s1 answer 4 value 66 miss 0; 1051 1 s0 \
answer 5 clean; 1052 2 s0 out 1 clean; 1053 2 s0+f give 1 1; 1054 2 f drop 1; 1055 2 s1 answer 0 value 66 miss 0; \
tiles 14 14 6 0; promotions 64; demotions 2; preemptions 0; images 0 516; frames 1 1 510; end

run: drawn with wires beside a daemon from 47
turns: 1025 023023112310222110120
stores: reads 515 516 writes
trace: trace 3 512 3 1 0123; daemon 1 2; 0 map 0 0 512 fixed write; 0 load 0 0; 511 times 8192: 0 load 0 #; 0 map 0 \
512 8 growing write; 2 sync 0 511; 0 discard 0 511 2; 0 wire 0 511; 1 discard 0 511 1; 2 store 0 4243456 33; 0 sync 0 \
518; 1 wire 0 0; 0 store 0 4186112 45; 1 load 0 4243456; 0 evict 0 0; 0 load 0 0; end
report: 1025 0 s0 answer 513 done; 1026 2 s0 answer 0 clean; 1027 3 f claim 0 0 0; 1028 0 s0 answer 514 unmapped; 1029 \
2 s0+f claim 0 1 1 for 518 write; 1030 2 s0 out 1 clean; 1031 2 s0+f give 1 1; 1032 2 s0+f use 518 1 512 1048576 8 0; \
1033 2 s0 answer 1 done miss 0; 1034 1 s0+f clear 511 1; 1035 1 s0 answer 0 done; 1036 0 s0+f kept 0 512 0 0; 1037 0 \
s0 answer 515 busy 0; 1038 0 s0 answer 516 written; 1039 0 s0+f take 511 511 0 512 512 0; 1040 0 s0 answer 517 done \
miss 0; 1041 0 s0+f answer 518 clean; 1042 0 s0+f claim 0 2 2 for 0 read; 1043 0 s0 out 2 clean; 1044 0 s0+f give 2 2; \
1045 0 s0+f use 0 2 0 512 512 0; 1046 0 s0 failed 0 read 1; 1047 0 s0+f give 0 2; 1048 0 s0 answer 519 storefault 0 1; \
1049 1 s0+f pin 0 512 1; 1050 1 s0 answer 1 done; 1051 1 s0 answer 2 value 33 miss 0; 1052 3 f got 0; 1053 3 f drop 0; \
1054 3 f rest 0; 1055 3 f rest 0; tiles 14 14 6 0; promotions 65; demotions 3; preemptions 0; images 0 515; frames 2 0 \
510; end";
